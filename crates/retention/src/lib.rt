// Retention classes: tables from marks to classes, a node's class by a table and all marks, and every node's. What they mean is
// specs/Record.antt. No public function has a `requires`.
#![tactic(auto)]

ghost use Rattle.std.specs.Prelude.{◌≡◌, ◌<◌};
ghost use Rattle.fault.specs.Number.{number_of};
ghost use Rattle.retention.specs.Record.{common_table, frame_ok, table_number, fell, counts_above, counts_as, class, classes_into};

use fault::Fault;
use plan::kinds::Kind;

// The table of classes where the house hands in none.
pub fn common_table() -> [u8; 12]
    ensures { result ≡ common_table }
{
    [0, 0, 1, 3, 2, 3, 3, 1, 4, 2, 5, 2]
}

// Frame i of a table is mark i and a class.
fn frame_ok(table: &[u8], i: usize) -> bool
    requires { i < 6 }
    ensures { result ≡ frame_ok table.now i }
{
    usize::from(plan::byte_at(table, 2 * i)) == i && plan::byte_at(table, 2 * i + 1) <= 3
}

// A table of classes is checked.
pub fn check_table(table: &[u8]) -> Result<(), Fault>
    ensures { number_of result ≡ table_number table.now }
{
    if table.len() != 12 {
        return Err(Fault::BadTable);
    }
    if table[1] != 0 {
        return Err(Fault::BadTable);
    }
    for i in 0..6 {
        if !frame_ok(table, i) {
            return Err(Fault::BadTable);
        }
    }
    Ok(())
}

fn fell(mark: u8) -> bool
    ensures { result ≡ fell mark }
{
    mark == 4 || mark == 5
}

// As what a committed node v counts: 5 where a node above fell, else 2 where one is not committed, else 3.
fn counts_above(plan: &[u8], marks: &[u8], v: u8) -> u8
    ensures { result ≡ counts_above plan.now marks.now v }
{
    let mut least = 3;
    let mut u = v;
    for _ in 0..v {
        if u == 0 {
            return least;
        }
        u = plan::parent(plan, u);
        let mark = plan::byte_at(marks, usize::from(u));
        if fell(mark) {
            return 5;
        }
        if mark != 3 {
            least = 2;
        }
    }
    least
}

// The mark as which node v counts.
fn counts_as(plan: &[u8], marks: &[u8], v: u8) -> u8
    ensures { result ≡ counts_as plan.now marks.now v }
{
    let mark = plan::byte_at(marks, usize::from(v));
    if mark != 3 {
        return mark;
    }
    counts_above(plan, marks, v)
}

// The retention class of node v by a table.
pub fn class(plan: &[u8], table: &[u8], marks: &[u8], v: u8) -> u8
    ensures { result ≡ class plan.now table.now marks.now v }
{
    match plan::node_kind(plan, v) {
        Kind::Task => {
            let mark = counts_as(plan, marks, v);
            plan::byte_at(table, 2 * usize::from(mark) + 1)
        }
        _ => 0,
    }
}

// Every node's class by a table, in `out` if that is one byte a node of at most 160.
pub fn classify(plan: &[u8], table: &[u8], marks: &[u8], out: &mut [u8])
    ensures { out.new ≡ classes_into plan.now table.now marks.now out.old }
{
    let n = plan::node_count(plan);
    if 160 < n {
        return;
    }
    if out.len() != n {
        return;
    }
    for (v, x) in out.iter_mut().enumerate() {
        *x = class(plan, table, marks, v as u8);
    }
}

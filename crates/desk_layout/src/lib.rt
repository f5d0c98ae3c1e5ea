// A plan with desks, checked and taken apart: its plain plan and the two tables of its layout, in arrays that the caller lends. The calls on such plans
// build on this. What is prepared is specs/Tables.antt. `check_into` asks how long the lent arrays are, and that no desk is marked yet; the methods of `Desks`
// ask that it has no more nodes and rows than a plan has.
#![tactic(auto)]

ghost use Rattle.std.specs.Prelude.{◌≡◌, true, cond, ℕ, ◌+◌, ◌*◌, ◌≤◌, ◌<◌, eqb, leb, length, take, replicate, IfOk};
ghost use Rattle.lists.specs.Seq.{table};
ghost use Rattle.fault.specs.Number.{number_of};
ghost use Rattle.desks.specs.Desk.{nodes, desk_of, plain, threes, desks_low, desk_check, DeskAccepted, used};
ghost use Rattle.desk_layout.specs.Tables.{marked_below, numbered_byte, mark_of, row_byte, Prepared};

use fault::Fault;
use layout::Layout;

// How many nodes a plan has, at three bytes each.
pub fn node_count(plan: &[u8]) -> usize
    ensures { result ≡ nodes plan.now }
{
    plan.len() / 3
}

fn desk_at(plan: &[u8], v: usize) -> u8
    requires { v < nodes plan.now }
    ensures { result ≡ desk_of plan.now v }
{
    plan[3 * v + 2]
}

fn length_ok(plan: &[u8]) -> bool
    ensures { result ≡ threes plan.now }
{
    let n = plan.len();
    if n % 3 != 0 {
        return false;
    }
    0 < n && n <= 480
}

// The plain plan, in the front of `two`, and the desks in use marked by 0; answers a number that is above all of them. One loop for all of it: the marks
// cost nothing beside the copy.
fn split(plan: &[u8], two: &mut [u8], row: &mut [u8]) -> usize
    requires { (length two.old ≡ 320) × (nodes plan.now ≤ 160) × (row.old ≡ replicate 256 255) }
    ensures two_after { take (2 * nodes plan.now) two.new ≡ plain plan.now }
    ensures row_after { row.new ≡ table (mark_of plan.now) 256 }
    ensures plan_value { (desks_low plan.now ≡ leb result 160) × ((d : ℕ) → used plan.now d ≡ true → d < result) }
{
    let n = node_count(plan);
    let mut top = 0;
    for v in 0..n {
        let kind = plan[3 * v];
        let parent = plan[3 * v + 1];
        two[2 * v] = kind;
        two[2 * v + 1] = parent;
        let d = usize::from(desk_at(plan, v));
        row[d] = 0;
        if top <= d {
            top = d + 1;
        }
    }
    top
}

// The check, and a number that is above all desks in use. Of an accepted plan the plain plan is then in the front of `two`, and its desks are marked by 0.
pub fn check_into(plan: &[u8], two: &mut [u8], row: &mut [u8]) -> Result<usize, Fault>
    requires { (length two.old ≡ 320) × (row.old ≡ replicate 256 255) }
    ensures number_value { number_of result ≡ desk_check plan.now }
    ensures two_after { IfOk result (λ top. (take (2 * nodes plan.now) two.new ≡ plain plan.now) × (row.new ≡ table (mark_of plan.now) 256) × (top ≤ 160) × ((d : ℕ) → used plan.now d ≡ true → d < top)) }
{
    if !length_ok(plan) {
        return Err(Fault::BadLength);
    }
    let top = split(plan, two, row);
    let n = node_count(plan);
    checker::check(&two[..2 * n])?;
    if top <= 160 {
        Ok(top)
    } else {
        Err(Fault::BadDesk)
    }
}

// The check of a plan with desks.
pub fn check(plan: &[u8]) -> Result<(), Fault>
    ensures { number_of result ≡ desk_check plan.now }
{
    let mut two = [0u8; 320];
    let mut row = [255u8; 256];
    check_into(plan, &mut two, &mut row)?;
    Ok(())
}

// A marked desk's row, or the byte as it is.
fn numbered(b: u8, row: u8) -> u8
    ensures { result ≡ cond (eqb b 0) row b }
{
    if b == 0 { row } else { b }
}

// The next row behind a marked desk, or the same.
fn next_row(b: u8, row: u8) -> u8
    requires { row < 255 }
    ensures { result ≡ row + cond (eqb b 0) 1 0 }
{
    if b == 0 { row + 1 } else { row }
}

// Numbers the marked desks below `top` in rising number; answers how many they are.
fn number_rows(row: &mut [u8], top: usize) -> usize
    requires { (length row.old ≡ 256) × (top ≤ 160) }
    ensures value { result ≡ marked_below row.old top }
    ensures row_after { row.new ≡ table (numbered_byte row.old top) 256 }
{
    let mut count = 0;
    for d in 0..top {
        let b = row[d];
        row[d] = numbered(b, count);
        count = next_row(b, count);
    }
    usize::from(count)
}

// Every node's row, in the front of `home`.
fn write_homes(plan: &[u8], row: &[u8], home: &mut [u8])
    requires { DeskAccepted plan.now × (row.now ≡ table (row_byte plan.now) 256) × (length home.old ≡ 160) }
    ensures { take (nodes plan.now) home.new ≡ table (λ v. row_byte plan.now (desk_of plan.now v)) (nodes plan.now) }
{
    let n = node_count(plan);
    for v in 0..n {
        home[v] = row[usize::from(desk_at(plan, v))];
    }
}

// A plan with desks taken apart: its plain plan in the front of `two`, every node's row in the front of `home`, every desk's row, and how many nodes and
// rows there are.
// Its arrays have one length for all plans, and `nodes` says how much of them is used: nothing is allocated.
#[derive(Drop)]
pub struct Desks {
    pub two: [u8; 320],
    pub home: [u8; 160],
    pub row: [u8; 256],
    pub nodes: usize,
    pub rows: usize,
}

impl Desks {
    // No plan yet: no desk is marked. Inlined, so that its arrays are made where they stand.
    #[inline(always)]
    pub fn new() -> Desks
        ensures { result.row ≡ replicate 256 255 }
    {
        Desks {
            two: [0; 320],
            home: [0; 160],
            row: [255; 256],
            nodes: 0,
            rows: 0,
        }
    }

    // Checks a plan and takes it apart, in place: handed out by value, a desk's step of a small plan took 114 nanoseconds in place of 92.
    pub fn prepare(&mut self, plan: &[u8]) -> Result<(), Fault>
        requires { self.old.row ≡ replicate 256 255 }
        ensures number_value { number_of result ≡ desk_check plan.now }
        ensures prepared { IfOk result (λ _. Prepared plan.now self.new.rows self.new.two self.new.home self.new.row) }
        ensures counted { IfOk result (λ _. self.new.nodes ≡ nodes plan.now) }
    {
        let top = check_into(plan, &mut self.two, &mut self.row)?;
        self.nodes = node_count(plan);
        self.rows = number_rows(&mut self.row, top);
        write_homes(plan, &self.row, &mut self.home);
        Ok(())
    }

    // The plain plan with the tables of its layout.
    pub fn layout(&self) -> Layout<'_>
        requires { self.now.nodes ≤ 160 }
        ensures { (result.plan.now ≡ take (2 * self.now.nodes) self.now.two) × (result.home.now ≡ self.now.home) × (result.row.now ≡ self.now.row) × (result.rows ≡ self.now.rows) }
    {
        Layout {
            plan: &self.two[..2 * self.nodes],
            home: &self.home,
            row: &self.row,
            rows: self.rows,
        }
    }

    // The state has a byte for every node in every row.
    pub fn fits(&self, state: &[u8]) -> bool
        requires { (self.now.nodes ≤ 160) × (self.now.rows ≤ 160) }
        ensures { result ≡ eqb (length state.now) (self.now.rows * self.now.nodes) }
    {
        state.len() == self.rows * self.nodes
    }
}

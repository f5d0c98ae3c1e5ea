// Another row, merged into a site's own: what either has heard (rules V). What a merged row is, and what the call answers, is specs/Merge.antt;
// that merging is as good as the messages is claimed in the crate line. No public function has a `requires`: bad input is refused.
#![tactic(auto)]

ghost use Rattle.std.specs.Prelude.{◌≡◌, ◌&&◌, ◌<◌, ◌≤◌, length};
ghost use Rattle.fault.specs.Number.{number_of, value_of};
ghost use Rattle.plan.specs.Plan.{size};
ghost use Rattle.merge.specs.Output.{output};
ghost use Rattle.merge.specs.Merge.{merged, row_applies, merge_of};
ghost use Rattle.merge.specs.Bytes.{byte_applies, byte_fits, new_bits, new_below};

use fault::Fault;
use plan::kinds::Kind;

// Offer, pick and turned down (c2) are for a child of an xor, yes and no (30) for a conditional; the others are for every node.
fn byte_fits(chosen: bool, answers: bool, b: u8) -> bool
    ensures { result ≡ byte_fits chosen answers b }
{
    (chosen | (b & 0xc2 == 0)) & (answers | (b & 0x30 == 0))
}

// Each bit of the node's byte is an event that applies to the node.
fn byte_applies(plan: &[u8], v: u8, b: u8) -> bool
    requires { v < size plan.now }
    ensures { result ≡ byte_applies plan.now v b }
{
    let chosen = plan::kind_above(plan, v) == Kind::Xor;
    let answers = plan::node_kind(plan, v) == Kind::Conditional;
    byte_fits(chosen, answers, b)
}

// Each event that one of the rows has applies.
fn rows_apply(plan: &[u8], row: &[u8], other: &[u8]) -> bool
    requires plan_bound { size plan.now ≤ 160 }
    requires row_len { length row.now ≡ size plan.now }
    requires other_len { length other.now ≡ size plan.now }
    ensures { result ≡ (row_applies plan.now row.now && row_applies plan.now other.now) }
{
    for (v, &byte) in row.iter().enumerate() {
        if !byte_applies(plan, v as u8, byte | other[v]) {
            return false;
        }
    }
    true
}

// How many bits y has that x has not.
fn new_bits(x: u8, y: u8) -> u16
    ensures value { result ≡ new_bits x y }
    ensures upper_bound { result ≤ 8 }
{
    u32::count_ones(((x | y) ^ x) as u32) as u16
}

// Merges the rows, and answers how many bits were new.
fn join(row: &mut [u8], other: &[u8]) -> u16
    requires row_len { length row.old ≡ length other.now }
    requires row_len_bound { length row.old ≤ 160 }
    ensures row_after { row.new ≡ merged row.old other.now }
    ensures value { result ≡ new_below row.old other.now (length row.old) }
{
    let mut new = 0;
    for (i, &byte) in other.iter().enumerate() {
        new += new_bits(row[i], byte);
        row[i] |= byte;
    }
    new
}

// Merges `other` into `row`, and answers how many events were new: 1 to 6 by the check, 7 where one of the two is not one byte a node, 9 where one
// has an event that does not apply; then `row` stays.
pub fn merge(plan: &[u8], row: &mut [u8], other: &[u8]) -> Result<u16, Fault>
    ensures { merge_of plan.now row.old other.now ≡ output (number_of result) (value_of result) row.new }
{
    let n = plan::node_count(plan);
    checker::fit(plan, (row.len() == n) & (other.len() == n))?;
    if !rows_apply(plan, row, other) {
        return Err(Fault::NotApplicable);
    }
    Ok(join(row, other))
}

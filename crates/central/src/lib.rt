// The central rule as a function: over lent marks and notes, one byte a node each, it answers whether an event is allowed, and advances the
// bytes if so. What the rule is stands in specs/Central.antt, what the function answers in specs/Rule.antt: one equation for the answer
// and every lent byte. That it replays just the runs is the claim of specs/Replay.antt. No public function has a `requires`.
#![tactic(auto)]

ghost use Rattle.std.specs.Prelude.{◌≡◌, true, ◌&&◌, not, ◌<◌, ◌≤◌, length, get_or};
ghost use Rattle.lists.specs.Seq.{all, any};
ghost use Rattle.plan.specs.Plan.{size, kind, parent, children, children_below};
ghost use Rattle.plan.specs.Check.{Accepted};
ghost use Rattle.event.specs.Event.{code_of, event_of, applies, start, commit, pick, down};
ghost use Rattle.central.specs.Central.{marked, started, is_yes, is_no, of_branch, reached_by, finishes_by, fails_by, allowed_by, allowed};
ghost use Rattle.central.specs.Rule.{answer_of, state_of, marks_after, notes_after, right_size, ruled, rule_of};
ghost use Rattle.central.specs.Ruling.{ruling_of};
ghost use Rattle.central.specs.Scan.{told_answer, mark_in, picked_at, besides};

use fault::Fault;
use plan::kinds::Kind;

// Sets of marks: bit m stands for mark m. They stay bytes, since one shift tests a mark and `255 - set` is all other marks; a slice would be searched.
const NONE: u8 = 0;

const IDLE: u8 = 0b000001;

const RUNNING: u8 = 0b000010;

const OFFERED: u8 = 0b000100;

const COMMITTED: u8 = 0b001000;

const FAILED: u8 = 0b010000;

const ENDED: u8 = 0b011000; // committed or failed

const SETTLED: u8 = 0b111000; // committed, failed or turned down

// The rule's answer on an event that it was asked of.
#[derive(Clone, Copy, PartialEq, Eq)]
pub enum Ruling {
    Allowed,
    Forbidden,
}

// What a conditional has answered.
#[derive(Clone, Copy, PartialEq, Eq)]
enum Answer {
    Nothing,
    Yes,
    No,
}

// v's byte.
fn byte_of(bytes: &[u8], v: u8) -> u8
    ensures { result ≡ get_or bytes.now v 0 }
{
    plan::byte_at(bytes, usize::from(v))
}

// v's mark is in the set. A mark byte above 5 is read as 5.
fn marked(marks: &[u8], v: u8, set: u8) -> bool
    ensures { result ≡ mark_in set marks.now v }
{
    let mark = byte_of(marks, v).min(5);
    (set >> mark) % 2 == 1
}

// What v has answered.
fn answered(notes: &[u8], v: u8) -> Answer
    ensures { told_answer result ≡ answer_of (get_or notes.now v 0) }
{
    let b = byte_of(notes, v);
    if event::has_bit(b, 5) {
        Answer::Yes
    } else if event::has_bit(b, 6) {
        Answer::No
    } else {
        Answer::Nothing
    }
}

// v is picked.
fn picked(notes: &[u8], v: u8) -> bool
    ensures { result ≡ picked_at notes.now v }
{
    event::has_bit(byte_of(notes, v), 7)
}

// The functions take plan, marks and notes apart, as `rule` is lent them: each reads some of the three, and a struct would make its clauses longer.

// Every child of u below `below` has a mark of the set.
fn all_marked(plan: &[u8], marks: &[u8], u: u8, below: u8, set: u8) -> bool
    ensures { result ≡ all (mark_in set marks.now) (children_below plan.now below u) }
{
    for c in 1..below {
        if plan::parent(plan, c) == u && !marked(marks, c, set) {
            return false;
        }
    }
    true
}

// Some child of u but `skip` is picked.
fn any_picked(plan: &[u8], notes: &[u8], u: u8, skip: u8) -> bool
    requires { size plan.now ≤ 160 }
    ensures { result ≡ any (picked_at notes.now) (besides skip (children plan.now u)) }
{
    let n = plan::node_count(plan) as u8;
    for c in 1..n {
        if plan::parent(plan, c) == u && c != skip && picked(notes, c) {
            return true;
        }
    }
    false
}

// The child of u at place k, from 0; 0, which is nobody's child, where there is none.
fn child_at(plan: &[u8], u: u8, k: u8) -> u8
    requires { size plan.now ≤ 160 }
    ensures { result ≡ get_or (children plan.now u) k 0 }
{
    let n = plan::node_count(plan) as u8;
    let mut left = k;
    for c in 1..n {
        if plan::parent(plan, c) == u {
            if left == 0 {
                return c;
            }
            left -= 1;
        }
    }
    0
}

// Every child of u has a mark of the set.
fn every(plan: &[u8], marks: &[u8], u: u8, set: u8) -> bool
    requires { size plan.now ≤ 160 }
    ensures { result ≡ all (mark_in set marks.now) (children plan.now u) }
{
    all_marked(plan, marks, u, plan::node_count(plan) as u8, set)
}

// Some child of u has a mark of the set.
fn some(plan: &[u8], marks: &[u8], u: u8, set: u8) -> bool
    requires { size plan.now ≤ 160 }
    ensures { result ≡ any (mark_in set marks.now) (children plan.now u) }
{
    !every(plan, marks, u, 255 - set)
}

// The child of v's answered branch has a mark of the set.
fn branch(plan: &[u8], marks: &[u8], notes: &[u8], v: u8, set: u8) -> bool
    requires { (size plan.now ≤ 160) × (length (children plan.now v) ≡ 2) }
    ensures { result ≡ of_branch (mark_in set marks.now) (answer_of (get_or notes.now v 0)) (children plan.now v) }
{
    match answered(notes, v) {
        Answer::Yes => marked(marks, child_at(plan, v, 0), set),
        Answer::No => marked(marks, child_at(plan, v, 1), set),
        Answer::Nothing => false,
    }
}

// v's place among the children of u is reached (E2).
fn reached(plan: &[u8], marks: &[u8], notes: &[u8], u: u8, v: u8) -> bool
    requires { v ≤ size plan.now }
    ensures { let p = plan.now in result ≡ reached_by (kind p u) (state_of marks.now notes.now) u (children p u) v }
{
    match plan::node_kind(plan, u) {
        Kind::Task => false,
        Kind::Serial => all_marked(plan, marks, u, v, COMMITTED),
        Kind::And | Kind::Or | Kind::Xor | Kind::Waiting => true,
        Kind::Contingency => all_marked(plan, marks, u, v, FAILED),
        Kind::Conditional => {
            if all_marked(plan, marks, u, v, NONE) {
                matches!(answered(notes, u), Answer::Yes)
            } else {
                matches!(answered(notes, u), Answer::No)
            }
        }
    }
}

// v has not started, and may (E2).
fn may_start(plan: &[u8], marks: &[u8], notes: &[u8], v: u8) -> bool
    requires { v < size plan.now }
    ensures { result ≡ allowed_by plan.now (state_of marks.now notes.now) start v }
{
    if !marked(marks, v, IDLE) {
        return false;
    }
    if v == 0 {
        return true;
    }
    let u = plan::parent(plan, v);
    if marked(marks, u, IDLE) {
        return false;
    }
    reached(plan, marks, notes, u, v)
}

// v's children let it finish (E4).
fn finishes(plan: &[u8], marks: &[u8], notes: &[u8], v: u8) -> bool
    requires { Accepted plan.now × (v < size plan.now) }
    ensures { let p = plan.now in result ≡ finishes_by (kind p v) (state_of marks.now notes.now) v (children p v) }
{
    match plan::node_kind(plan, v) {
        Kind::Task => true,
        Kind::Serial | Kind::And | Kind::Waiting => every(plan, marks, v, COMMITTED),
        Kind::Or => every(plan, marks, v, ENDED) && some(plan, marks, v, COMMITTED),
        Kind::Xor => every(plan, marks, v, SETTLED) && some(plan, marks, v, COMMITTED),
        Kind::Contingency => some(plan, marks, v, COMMITTED),
        Kind::Conditional => branch(plan, marks, notes, v, COMMITTED),
    }
}

// v's children let it fail (E5).
fn fails(plan: &[u8], marks: &[u8], notes: &[u8], v: u8) -> bool
    requires { Accepted plan.now × (v < size plan.now) }
    ensures { let p = plan.now in result ≡ fails_by (kind p v) (state_of marks.now notes.now) v (children p v) }
{
    match plan::node_kind(plan, v) {
        Kind::Task => true,
        Kind::Serial | Kind::And => some(plan, marks, v, FAILED),
        Kind::Or | Kind::Xor | Kind::Contingency => every(plan, marks, v, FAILED),
        Kind::Conditional => branch(plan, marks, notes, v, FAILED),
        Kind::Waiting => every(plan, marks, v, ENDED) && some(plan, marks, v, FAILED),
    }
}

// An xor's child commits once it is picked, any other node when it finishes (E6, E7).
fn may_commit(plan: &[u8], marks: &[u8], notes: &[u8], v: u8) -> bool
    requires { Accepted plan.now × (v < size plan.now) }
    ensures { result ≡ allowed_by plan.now (state_of marks.now notes.now) commit v }
{
    match plan::kind_above(plan, v) {
        Kind::Xor => marked(marks, v, OFFERED) && picked(notes, v),
        _ => marked(marks, v, RUNNING) && finishes(plan, marks, notes, v),
    }
}

// A started conditional answers once (E3).
fn may_answer(marks: &[u8], notes: &[u8], v: u8) -> bool
    ensures { let s = state_of marks.now notes.now in result ≡ (started s v && not (is_yes (s.answer v)) && not (is_no (s.answer v))) }
{
    !marked(marks, v, IDLE) && matches!(answered(notes, v), Answer::Nothing)
}

// An offered child is picked if none is yet (E7).
fn may_pick(plan: &[u8], marks: &[u8], notes: &[u8], v: u8) -> bool
    requires { size plan.now ≤ 160 }
    ensures { result ≡ allowed_by plan.now (state_of marks.now notes.now) pick v }
{
    marked(marks, v, OFFERED) && !any_picked(plan, notes, plan::parent(plan, v), 0)
}

// An offered child is turned down if another is picked (E7).
fn may_turn_down(plan: &[u8], marks: &[u8], notes: &[u8], v: u8) -> bool
    requires { size plan.now ≤ 160 }
    ensures { result ≡ allowed_by plan.now (state_of marks.now notes.now) down v }
{
    marked(marks, v, OFFERED) && any_picked(plan, notes, plan::parent(plan, v), v)
}

// The rule allows an event, which applies. Codes are the numbers that the crate event speaks of, whose rules go by them.
fn allowed(plan: &[u8], code: u8, v: u8, marks: &[u8], notes: &[u8]) -> bool
    requires accepted { Accepted plan.now × (v < size plan.now) }
    requires le_code { (1 ≤ code) × (code ≤ 8) }
    requires v_value { applies plan.now (event_of code v) ≡ true }
    ensures { result ≡ allowed plan.now (state_of marks.now notes.now) (event_of code v) }
{
    match code {
        1 => may_start(plan, marks, notes, v),
        2 => marked(marks, v, RUNNING) && finishes(plan, marks, notes, v),
        3 => may_commit(plan, marks, notes, v),
        4 => marked(marks, v, RUNNING) && fails(plan, marks, notes, v),
        5..=6 => may_answer(marks, notes, v),
        7 => may_pick(plan, marks, notes, v),
        _ => may_turn_down(plan, marks, notes, v),
    }
}

// Start, offer, commit, abort and turned down set the mark; yes, no and pick are noted (E8).
fn advance(code: u8, v: u8, marks: &mut [u8], notes: &mut [u8])
    requires le_code { (1 ≤ code) × (code ≤ 8) }
    requires v_in_bounds { (v < length marks.old) × (v < length notes.old) }
    ensures { (marks.new ≡ marks_after (code_of code) v marks.old) × (notes.new ≡ notes_after (code_of code) v notes.old) }
{
    let i = usize::from(v);
    match code {
        1..=4 => marks[i] = code,
        5..=7 => notes[i] = event::with_bit(notes[i], code),
        _ => marks[i] = 5,
    }
}

// Marks and notes are one byte a node.
fn right_size(plan: &[u8], marks: &[u8], notes: &[u8]) -> bool
    ensures { result ≡ right_size plan.now marks.now notes.now }
{
    let n = plan::node_count(plan);
    marks.len() == n && notes.len() == n
}

// The rule on an event: its answer, and marks and notes advanced where the event is allowed (E10).
pub fn rule(
    plan: &[u8],
    code: u32,
    node: u32,
    marks: &mut [u8],
    notes: &mut [u8],
) -> Result<Ruling, Fault>
    ensures { rule_of plan.now code node marks.old notes.old ≡ ruled marks.new notes.new (ruling_of result) }
{
    event::validate(plan, right_size(plan, marks, notes), true, code, node)?;
    if !allowed(plan, code as u8, node as u8, marks, notes) {
        return Ok(Ruling::Forbidden);
    }
    advance(code as u8, node as u8, marks, notes);
    Ok(Ruling::Allowed)
}

// The single pass: settles every node that it reaches by the answers given. What a node comes to is specs/Pass.antt. `pass` has no
// `requires`; a refused pass leaves the marks.
#![tactic(auto)]

ghost use Rattle.std.specs.Prelude.{◌≡◌, ◌<◌};
ghost use Rattle.fault.specs.Number.{number_of};
ghost use Rattle.plan.specs.declared.kinds.Kind.TheVariants.{Xor as xor};
ghost use Rattle.links.specs.Links.{Linked};
ghost use Rattle.pass.specs.declared.Mark.TheVariants.{TurnedDown as turned_down};
ghost use Rattle.pass.specs.Pass.{bad_answer, child_mark, nothing, pass_result, pass_into};
ghost use Rattle.pass.specs.Values.{end_number, end_byte, mark_byte, outcome_of, task_end, tally_of, so_far, comes_to, says_no, done_by, ends_as, Ready, Ended, OfPass};

use fault::Fault;
use links::Links;
use plan::kinds::Kind;

// How a node ends that has no fault.
#[derive(Clone, Copy, PartialEq, Eq)]
enum End {
    Works = 3,
    Breaks = 4,
}

impl From<End> for u8 {
    ghost from_gives = { λ e n. n ≡ end_number e };

    fn from(end: End) -> u8 {
        end as u8
    }
}

// The mark of a child that was settled. A block's state is the mark that decides how it ends, by the children that were settled so far: it
// works, it breaks, or children of an xor offer and the picked one is not among them.
#[derive(Clone, Copy, PartialEq, Eq)]
enum Mark {
    Committed = 3,
    Failed = 4,
    TurnedDown = 5,
}

impl From<Mark> for u8 {
    ghost from_gives = { λ m n. n ≡ mark_byte m };

    fn from(mark: Mark) -> u8 {
        mark as u8
    }
}

// Whether a node's answer is right, as far as that is known before its children.
fn check_answer(kind: Kind, answer: u8) -> Result<(), Fault>
    ensures number { number_of result ≡ bad_answer kind answer }
    ensures own { OfPass result }
{
    match kind {
        Kind::Task | Kind::Conditional => match answer {
            1 | 2 => Ok(()),
            _ => Err(Fault::BadAnswer),
        },
        _ => Ok(()),
    }
}

// The end of a task.
fn task_end(answer: u8) -> Result<End, Fault>
    ensures value { end_byte result ≡ task_end answer }
    ensures own { OfPass result }
{
    match answer {
        1 => Ok(End::Works),
        2 => Ok(End::Breaks),
        _ => Err(Fault::BadAnswer),
    }
}

// The mark of a child that ended so, behind so many others.
fn child_mark(kind: Kind, answer: u8, places: u8, end: End) -> Mark
    requires { places < 255 }
    ensures { mark_byte result ≡ child_mark kind answer (tally_of places) (outcome_of (end_number end)) }
{
    match end {
        End::Breaks => Mark::Failed,
        End::Works => match kind {
            Kind::Xor => {
                if places + 1 == answer {
                    Mark::Committed
                } else {
                    Mark::TurnedDown
                }
            }
            _ => Mark::Committed,
        },
    }
}

// A block's state before its first child.
fn at_first(kind: Kind) -> Mark
    ensures { mark_byte result ≡ so_far kind nothing }
{
    match kind {
        Kind::Serial | Kind::And | Kind::Waiting => Mark::Committed,
        _ => Mark::Failed,
    }
}

// Its state after a child with this mark.
fn comes_to(start: Mark, state: Mark, mark: Mark) -> Mark
    ensures { mark_byte result ≡ comes_to (mark_byte start) (mark_byte state) (mark_byte mark) }
{
    match mark {
        Mark::TurnedDown => match state {
            Mark::Failed => mark,
            _ => state,
        },
        _ => { if mark == start { state } else { mark } }
    }
}

// A conditional is answered by no: its first child is not reached.
fn says_no(kind: Kind, answer: u8) -> bool
    ensures { result ≡ says_no kind answer }
{
    match kind {
        Kind::Conditional => answer == 2,
        _ => false,
    }
}

// Whether a block reaches no child behind one that ended so.
fn done(kind: Kind, answer: u8, end: End) -> bool
    ensures { result ≡ done_by kind answer (end_number end) }
{
    match kind {
        Kind::Serial => end == End::Breaks,
        Kind::Contingency => end == End::Works,
        Kind::Conditional => answer == 1,
        _ => false,
    }
}

// The end of a block, by its state.
fn ends_as(kind: Kind, answer: u8, state: Mark) -> Result<End, Fault>
    requires { state ≡ turned_down → kind ≡ xor }
    ensures value { end_byte result ≡ ends_as kind answer (mark_byte state) }
    ensures own { OfPass result }
{
    match state {
        Mark::Committed => Ok(End::Works),
        Mark::Failed => {
            if kind == Kind::Xor && answer != 0 {
                Err(Fault::BadPick)
            } else {
                Ok(End::Breaks)
            }
        }
        Mark::TurnedDown => Err(Fault::BadPick),
    }
}

// Settles a node: leaves the marks of the nodes below it, and answers how it ended.
fn settle(
    plan: &[u8],
    answers: &[u8],
    links: &Links,
    marks: &mut [u8],
    node: usize,
) -> Result<End, Fault>
    requires { Ready plan.now answers.now marks.old node × Linked plan.now links.now.first links.now.next }
    ensures { Ended plan.now answers.now marks.old node marks.new result }
{
    let kind = Kind::from(plan[2 * node]);
    let answer = answers[node];
    if kind == Kind::Task {
        return task_end(answer);
    }
    check_answer(kind, answer)?;
    let start = at_first(kind);
    let mut state = start;
    let mut places = 0;
    let mut c = links.first_child(node);
    if says_no(kind, answer) {
        c = links.next_sibling(c);
    }
    while c != 0 {
        match settle(plan, answers, links, marks, c) {
            Ok(end) => {
                let mark = child_mark(kind, answer, places, end);
                marks[c] = u8::from(mark);
                state = comes_to(start, state, mark);
                if done(kind, answer, end) {
                    return ends_as(kind, answer, state);
                }
            }
            Err(fault) => {
                marks[c] = 0;
                return Err(fault);
            }
        }
        places += 1;
        c = links.next_sibling(c);
    }
    ends_as(kind, answer, state)
}

// Settles the root, with links of its own making.
fn settle_root(plan: &[u8], answers: &[u8], marks: &mut [u8]) -> Result<End, Fault>
    requires { Ready plan.now answers.now marks.old 0 }
    ensures { Ended plan.now answers.now marks.old 0 marks.new result }
{
    let links = links::link(plan);
    settle(plan, answers, &links, marks, 0)
}

// The pass over an accepted plan, with one answer and one mark a node, for a caller that has tested them.
pub fn settle_all(plan: &[u8], answers: &[u8], marks: &mut [u8]) -> Result<(), Fault>
    requires { Ready plan.now answers.now marks.old 0 }
    ensures { pass_into plan.now answers.now marks.old ≡ pass_result (number_of result) marks.new }
{
    let n = plan::node_count(plan);
    let mut buf = [0u8; 160];
    let end = settle_root(plan, answers, &mut buf[..n])?;
    marks.copy_from_slice(&buf[..n]);
    marks[0] = u8::from(end);
    Ok(())
}

// The single pass: what was refused and the marks as they were, or every node's mark.
pub fn pass(plan: &[u8], answers: &[u8], marks: &mut [u8]) -> Result<(), Fault>
    ensures { pass_into plan.now answers.now marks.old ≡ pass_result (number_of result) marks.new }
{
    let n = plan::node_count(plan);
    checker::fit(plan, (answers.len() == n) & (marks.len() == n))?;
    settle_all(plan, answers, marks)
}

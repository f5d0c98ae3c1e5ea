// What is wrong with a call: one enum for the whole library, and the number that C programs get for each (rules H). No function has a `requires`.
#![tactic(auto)]

ghost use Rattle.std.specs.Prelude.{◌≡◌};
ghost use Rattle.fault.specs.Number.{fault_number, number_of};

// The test that a call fails. 10 to 12 are no faults of a call, but refusals of a step (`site::Refusal`).
#[derive(Clone, Copy, PartialEq, Eq)]
pub enum Fault {
    // a plan: its length, a kind, a parent, a task's child, a number of children, a depth
    BadLength = 1,
    BadKind = 2,
    BadParent = 3,
    TaskParent = 4,
    BadChildren = 5,
    TooDeep = 6,
    // the length of something lent
    BadBuffer = 7,
    // an event: there is no such code, node or site; it does not apply
    NotInPlan = 8,
    NotApplicable = 9,
    // the pass: an answer, an xor's pick
    BadAnswer = 13,
    BadPick = 14,
    // a text is malformed
    BadText = 15,
    // the journal is empty
    NothingToUndo = 16,
    // a depth form's depth; a plan is not in the fixed numbering
    BadDepth = 17,
    NotRenumbered = 18,
    // a name that no point has; a new name without a free slot
    UnknownPoint = 19,
    NoFreePoint = 20,
    // a table of classes
    BadTable = 21,
    // a desk
    BadDesk = 22,
    // a template: its marked node, the count, the size of the plan that it would give
    NotRepeatable = 23,
    BadCount = 24,
    TooManyNodes = 25,
    // the last small plan; a plan that is not small
    LastPlan = 26,
    NotSmall = 27,
    // marks that are not those of the answers
    BadMarks = 28,
    // a mark or an end that cannot be wanted; answers that do not exist
    BadTarget = 29,
    NoWay = 30,
}

impl From<Fault> for u8 {
    ghost from_gives = { λ f n. n ≡ fault_number f };

    fn from(f: Fault) -> u8 {
        f as u8
    }
}

// The number of an answer: 0 where the call passed.
pub fn number(answer: Result<(), Fault>) -> u8
    ensures { result ≡ number_of answer }
{
    match answer {
        Ok(()) => 0,
        Err(f) => u8::from(f),
    }
}

// What a node is, by its byte.
ghost use Rattle.std.specs.Prelude.{◌≡◌};
ghost use Rattle.plan.specs.Plan.{kind_of};

#[derive(Clone, Copy, PartialEq, Eq)]
pub enum Kind {
    Task = 1,
    Serial = 2,
    And = 3,
    Or = 4,
    Xor = 5,
    Contingency = 6,
    Conditional = 7,
    Waiting = 8,
}

// A byte that is no kind, which only a refused plan has, is read as a task's.
impl From<u8> for Kind {
    ghost from_gives = { λ b k. k ≡ kind_of b };

    fn from(b: u8) -> Kind {
        match b {
            2 => Kind::Serial,
            3 => Kind::And,
            4 => Kind::Or,
            5 => Kind::Xor,
            6 => Kind::Contingency,
            7 => Kind::Conditional,
            8 => Kind::Waiting,
            _ => Kind::Task,
        }
    }
}

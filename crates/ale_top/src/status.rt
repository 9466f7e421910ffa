ghost use Rattle.std.specs.Prelude.{◌≡◌};
ghost use Rattle.ale_top.specs.Numbers.{number_of};

/// How a run ended.
#[derive(Clone, Copy, Debug, PartialEq, Eq)]
pub enum Status {
    /// All was accepted, and each search ended within its budget.
    Done,
    /// All was accepted, and some search needs more visits than the budget.
    Unfinished,
    /// The words are not in form.
    Words,
    /// The grammar was refused.
    Grammar,
    /// The grammar was accepted and the commands were refused.
    Commands,
    /// A call of the files failed.
    ReadFault,
    /// A call of the sink failed.
    WriteFault,
    /// There was no memory left.
    NoMemory,
}

impl Status {
    /// The exit status of the process, from 0 to 7 in this order.
    pub fn number(self) -> u8
        ensures { result ≡ number_of self }
    {
        match self {
            Status::Done => 0,
            Status::Unfinished => 1,
            Status::Words => 2,
            Status::Grammar => 3,
            Status::Commands => 4,
            Status::ReadFault => 5,
            Status::WriteFault => 6,
            Status::NoMemory => 7,
        }
    }
}

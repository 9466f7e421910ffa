//! The stage that the program has reached.
ghost use Rattle.std.specs.Prelude.{◌≡◌};
ghost use Rattle.ale_stage.specs.Stages.{since};

/// The stage that the program has reached.
pub const STAGE: u32 = 4;

/// Whether the forms of this stage are built.
pub(crate) fn since(number: u32) -> bool
    ensures { result ≡ since number }
{
    number <= STAGE
}

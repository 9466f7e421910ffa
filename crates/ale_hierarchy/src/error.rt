use ale_text::Text;
use std::alloc::{AllocError, AllocFailed};
use thiserror::Error;

/// Why declarations give no signature: the first of these that holds, by the names of the first types and
/// features, in the order of their numbers, that show it.
#[derive(Debug, Drop, Error)]
pub enum SigError {
    /// There are more than 4,096 types, with `bot`.
    #[error("TooManyTypes")]
    TooManyTypes,
    /// There are more than 1,024 features.
    #[error("TooManyFeatures")]
    TooManyFeatures,
    /// The type is a proper subtype of itself.
    #[error("SubCycle")]
    SubCycle(Text),
    /// The first two types have common subtypes and no least one. The other two are the first of their
    /// most general common subtypes.
    #[error("NoJoin")]
    NoJoin(Text, Text, Text, Text),
    /// No type that mentions the feature, the first name, is above all that do. The two types are the
    /// first of the most general ones that mention it.
    #[error("TwoIntros")]
    TwoIntros(Text, Text, Text),
    /// The restrictions at the type and above it on the feature, the second name, have no join.
    #[error("ValueClash")]
    ValueClash(Text, Text),
    /// Restrictions lead from the type back to it, so that filling it in has no end.
    #[error("Loop")]
    Loop(Text),
    /// The type is extensional, and another is below it.
    #[error("ExtNotMaximal")]
    ExtNotMaximal(Text),
    /// A node of the type has more than 4,096 nodes, with all that is filled in below it.
    #[error("FillTooLarge")]
    FillTooLarge(Text),
    /// There is no memory for it.
    #[error("NoMemory")]
    NoMemory,
}

impl From<AllocError> for SigError {
    ghost use Rattle.std.specs.Prelude.{◌≡◌};
    ghost use Rattle.ale_hierarchy.specs.declared.error.SigError.TheVariants.{NoMemory};

    ghost from_gives = { λ _ error. error ≡ NoMemory };

    fn from(_error: AllocError) -> SigError {
        SigError::NoMemory
    }
}

impl<T: Drop> From<AllocFailed<T>> for SigError {
    ghost use Rattle.std.specs.Prelude.{◌≡◌};
    ghost use Rattle.ale_hierarchy.specs.declared.error.SigError.TheVariants.{NoMemory};

    ghost from_gives = { λ _ error. error ≡ NoMemory };

    fn from(_error: AllocFailed<T>) -> SigError {
        SigError::NoMemory
    }
}

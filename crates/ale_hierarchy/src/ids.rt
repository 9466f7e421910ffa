ghost use Rattle.std.specs.Prelude.{◌≡◌};

use std::marker::Model;

/// The number of a type; 0 is `bot`, the most general one.
#[derive(Clone, Copy, Debug, PartialEq, Eq)]
pub struct TypeId(u16);

impl Model for TypeId {
    ghost use Rattle.std.specs.Prelude.{ℕ};

    ghost Value = { ℕ };

    ghost view = { λ t. t.0 };

    ghost inverse = { λ n. record { 0 = n } };
}

impl TypeId {
    /// The type with this number.
    pub fn of(number: u16) -> TypeId
        ensures { result ≡ number }
    {
        TypeId(number)
    }

    /// The number.
    pub fn index(&self) -> usize
        ensures { result ≡ self.now }
    {
        self.0 as usize
    }
}

/// The number of a feature.
#[derive(Clone, Copy, Debug, PartialEq, Eq)]
pub struct FeatId(u16);

impl Model for FeatId {
    ghost use Rattle.std.specs.Prelude.{ℕ};

    ghost Value = { ℕ };

    ghost view = { λ t. t.0 };

    ghost inverse = { λ n. record { 0 = n } };
}

impl FeatId {
    /// The feature with this number.
    pub fn of(number: u16) -> FeatId
        ensures { result ≡ number }
    {
        FeatId(number)
    }

    /// The number.
    pub fn index(&self) -> usize
        ensures { result ≡ self.now }
    {
        self.0 as usize
    }
}

//! Levels of nesting, each with what it counts.
ghost use Rattle.std.specs.Prelude.{◌≡◌, ◌<◌, ◌^◌, suc};

use std::marker::Model;

/// The count of nesting at a place, and the one that what separates parts goes back to, which is not greater.
#[derive(Clone, Copy)]
pub(crate) struct Level {
    count: usize,
    least: usize,
}

impl Model for Level {
    ghost use Rattle.std.specs.Prelude.{ℕ, ◌≤◌};

    ghost Value = { ℕ × ℕ };

    ghost view = { λ l. (l.count, l.least) };

    ghost inverse = { λ p. record { count = p.0; least = p.1 } };

    ghost invariant = { λ l. l.least ≤ l.count };
}

impl Level {
    /// The level that begins with this count.
    pub(crate) fn of(count: usize) -> Level
        ensures { result ≡ (count, count) }
    {
        Level {
            count,
            least: count,
        }
    }

    pub(crate) fn count(self) -> usize
        ensures { result ≡ self.0 }
    {
        self.count
    }

    /// Behind a symbol that nests what follows.
    pub(crate) fn deeper(self) -> Level
        requires { self.0 < 2 ^ 32 }
        ensures { result ≡ (suc self.0, self.1) }
    {
        Level {
            count: self.count + 1,
            least: self.least,
        }
    }

    /// Behind `->`, which nests all that follows on its level.
    pub(crate) fn behind_then(self) -> Level
        requires { self.0 < 2 ^ 32 }
        ensures { result ≡ (suc self.0, suc self.1) }
    {
        Level {
            count: self.count + 1,
            least: self.least + 1,
        }
    }

    /// Behind what separates parts.
    pub(crate) fn separated(self) -> Level
        ensures { result ≡ (self.1, self.1) }
    {
        Level {
            count: self.least,
            least: self.least,
        }
    }
}

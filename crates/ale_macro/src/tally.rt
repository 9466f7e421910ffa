//! How many parts calls of macros have, by those of their arguments.
ghost use Rattle.std.specs.Prelude.{◌≡◌, ℕ, ◌+◌, ◌*◌, List, length, get_or, IfOk};
ghost use Rattle.ale_macro.specs.Sizes.{Near, tallied};

use std::alloc::{AllocError, Global};

/// Numbers from this one on are not told apart: it is one more than the parts that a description may have.
const MANY: u64 = 100_001;

/// How many parts calls of a macro have, by those of their arguments.
#[derive(Debug, Drop)]
pub struct Tally {
    /// The parts of its own.
    pub own: u64,
    /// How often each argument stands in it.
    pub uses: Vec<u64>,
}

/// The sum, as far as numbers are told apart.
fn sum(a: u64, b: u64) -> u64
    ensures { Near 100001 result (a + b) }
{
    a.min(MANY) + b.min(MANY)
}

/// The product, as far as numbers are told apart.
pub fn product(a: u64, b: u64) -> u64
    ensures { Near 100001 result (a * b) }
{
    a.min(MANY) * b.min(MANY)
}

impl Tally {
    /// No parts, by so many parameters.
    pub fn none(alloc: Global, parameters: u32) -> Result<Tally, AllocError>
        ensures uses { IfOk result (λ t. length t.uses.items ≡ parameters) }
        ensures parts { IfOk result (λ t. (xs : List ℕ) → tallied t xs ≡ 0) }
    {
        let mut uses = Vec::new(alloc);
        for made in 0..parameters {
            uses.push(0)?;
        }
        Ok(Tally { own: 0, uses })
    }

    /// So many parts more of its own.
    pub fn add(&mut self, times: u64)
        ensures own { Near 100001 self.new.own (self.old.own + times) }
        ensures uses { self.new.uses ≡ self.old.uses }
    {
        self.own = sum(self.own, times);
    }

    /// The variable so many times more: an argument, or a part of its own.
    pub fn put(&mut self, variable: u32, times: u64)
        ensures uses { length self.new.uses.items ≡ length self.old.uses.items }
        ensures parts { (xs : List ℕ) → length xs ≡ length self.old.uses.items →
            Near 100001 (tallied self.new xs) (tallied self.old xs + times * get_or xs variable 1) }
    {
        let place = variable as usize;
        if place >= self.uses.len() {
            self.own = sum(self.own, times);
            return;
        }
        self.uses[place] = sum(self.uses[place], times);
    }
}

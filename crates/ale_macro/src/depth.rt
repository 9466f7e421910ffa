//! How deep calls of macros are nested, by how deep their arguments are.
ghost use Rattle.std.specs.Prelude.{◌≡◌, ℕ, ◌+◌, max, List, length, get_or, IfOk};
ghost use Rattle.ale_macro.specs.Sizes.{Near, lowered, reached};

use std::alloc::{AllocError, Global};

/// Numbers from this one on are not told apart: it is one more than the nesting that a description may have.
const DEEP: u64 = 4_001;

/// How deep calls of a macro are nested, by how deep their arguments are.
#[derive(Debug, Drop)]
pub struct Depth {
    /// How deep its own parts are.
    pub own: u64,
    /// How deep the deepest place is at which each argument stands.
    pub places: Vec<Option<u64>>,
}

/// The sum, as far as numbers are told apart.
pub fn below(a: u64, b: u64) -> u64
    ensures { Near 4001 result (a + b) }
{
    a.min(DEEP) + b.min(DEEP)
}

/// The greater of two.
fn deeper(a: u64, b: u64) -> u64
    ensures { result ≡ max a b }
{
    if a < b { b } else { a }
}

/// A place that is so deep, or as deep as it was.
fn lowered(place: Option<u64>, depth: u64) -> u64
    ensures { result ≡ lowered place depth }
{
    match place {
        Some(other) => deeper(other, depth),
        None => depth,
    }
}

impl Depth {
    /// No parts, by so many parameters.
    pub fn none(alloc: Global, parameters: u32) -> Result<Depth, AllocError>
        ensures places { IfOk result (λ d. length d.places.items ≡ parameters) }
        ensures nesting { IfOk result (λ d. (xs : List ℕ) → reached d xs ≡ 0) }
    {
        let mut places = Vec::new(alloc);
        for made in 0..parameters {
            places.push(None)?;
        }
        Ok(Depth { own: 0, places })
    }

    /// A part of its own, so deep.
    pub fn add(&mut self, depth: u64)
        ensures own { self.new.own ≡ max self.old.own depth }
        ensures places { self.new.places ≡ self.old.places }
    {
        self.own = deeper(self.own, depth);
    }

    /// The variable, so deep: an argument, or a part of its own.
    pub fn put(&mut self, variable: u32, depth: u64)
        ensures places { length self.new.places.items ≡ length self.old.places.items }
        ensures nesting { (xs : List ℕ) → length xs ≡ length self.old.places.items →
            reached self.new xs ≡ max (reached self.old xs) (depth + get_or xs variable 0) }
    {
        let place = variable as usize;
        if place >= self.places.len() {
            self.own = deeper(self.own, depth);
            return;
        }
        self.places[place] = Some(lowered(self.places[place], depth));
    }
}

//! The variables of a declaration, as they are written.
ghost use Rattle.std.specs.Prelude.{◌≡◌, IfOk};
ghost use Rattle.ale_describe.specs.Variables.{is_anonymous};

use ale_text::Text;
use indexmap::IndexMap;
use std::alloc::{AllocError, Global};
use std::marker::Model;

/// The variables and macro calls of a declaration met so far. Contracts see the list of the variables' names in order of their
/// numbers, with `_` for each call.
#[derive(Drop)]
pub struct Slots {
    names: Vec<Text>,
    /// The number of each name other than `_`.
    numbers: IndexMap<String, u32>,
}

impl Model for Slots {
    ghost use Rattle.std.specs.Prelude.{List, ℕ};
    ghost use Rattle.ale_describe.specs.Numbers.{IsNumbered};

    ghost Value = { List (List ℕ) };

    ghost view = { λ s. s.names.items };

    ghost invariant = { λ s. IsNumbered s.names.items s.numbers.entries };
}

/// Whether the variable is one of its own wherever it stands.
fn is_anonymous(name: &Text) -> bool
    ensures { result ≡ is_anonymous name.now }
{
    name.as_str() == "_"
}

/// The number in 32 bits; a larger one is out of memory.
pub(crate) fn narrow(number: usize) -> Result<u32, AllocError>
    ensures { IfOk result (λ n. n ≡ number) }
{
    if number > 4_294_967_295 {
        return Err(AllocError);
    }
    Ok(number as u32)
}

impl Slots {
    ghost use Rattle.std.specs.Prelude.{OnOk, [], ◌∷◌, ◌++◌, length};
    ghost use Rattle.ale_describe.specs.Variables.{anonymous, slot_of, with_variable};

    /// None.
    pub fn new(alloc: Global) -> Slots
        ensures { result ≡ [] }
    {
        Slots {
            names: Vec::new(alloc),
            numbers: IndexMap::new(alloc),
        }
    }

    /// The names in order of their numbers.
    pub fn names(&self) -> &[Text]
        ensures { result.now ≡ self.now }
    {
        self.names.as_slice()
    }

    /// Adds a variable with this name, as the parameters of a macro are added.
    pub fn add(&mut self, alloc: Global, name: &Text) -> Result<(), AllocError>
        ensures { OnOk result (self.new ≡ self.old ++ name.now ∷ []) }
    {
        let own = name.copy(alloc)?;
        if is_anonymous(name) {
            self.names.push(own)?;
            return Ok(());
        }
        if let Some(_first) = self.numbers.get(name.as_str()) {
            self.names.push(own)?;
            return Ok(());
        }
        let next = narrow(self.names.len())?;
        let key = String::from_str(alloc, name.as_str())?;
        self.names.reserve(1)?;
        self.numbers.insert(key, next)?;
        match self.names.push(own) {
            Ok(()) => Ok(()),
            Err(_) => unreachable!(),
        }
    }

    /// The number of this occurrence of a variable.
    pub fn slot(&mut self, alloc: Global, name: &Text) -> Result<u32, AllocError>
        ensures slot { IfOk result (λ k. k ≡ slot_of self.old name.now) }
        ensures added { OnOk result (self.new ≡ with_variable self.old name.now) }
    {
        let next = narrow(self.names.len())?;
        if is_anonymous(name) {
            self.add(alloc, name)?;
            return Ok(next);
        }
        if let Some(number) = self.numbers.get(name.as_str()) {
            return Ok(*number);
        }
        self.add(alloc, name)?;
        Ok(next)
    }

    /// The number of a macro call.
    pub fn call(&mut self, alloc: Global) -> Result<u32, AllocError>
        ensures number { IfOk result (λ k. k ≡ length self.old) }
        ensures added { OnOk result (self.new ≡ self.old ++ anonymous ∷ []) }
    {
        let next = narrow(self.names.len())?;
        let name = Text::of(String::from_str(alloc, "_")?);
        self.add(alloc, &name)?;
        Ok(next)
    }
}

ghost use Rattle.std.specs.Prelude.{◌≡◌, ◌≤◌, ℕ, [], OnOk, IfOk, length, replicate};
ghost use Rattle.std.specs.List.{insert};
ghost use Rattle.ale_graph.specs.Structures.{value_in};
ghost use Rattle.ale_graph.specs.Drafts.{insert_value, values_in};

use ale_signature::FeatId;
use std::alloc::{AllocError, Global};
use std::marker::Model;

/// The values of a class, each with its feature, in rising feature order.
#[derive(Drop)]
pub(crate) struct Values {
    items: Vec<(FeatId, usize)>,
}

impl Model for Values {
    ghost use Rattle.std.specs.Prelude.{List, ℕ};

    ghost Value = { List (ℕ × ℕ) };

    ghost view = { λ v. v.items.items };
}

impl Values {
    /// No values. It takes no memory.
    pub(crate) fn new(alloc: Global) -> Values
        ensures { result ≡ [] }
    {
        Values {
            items: Vec::new(alloc),
        }
    }

    /// The values in order.
    pub(crate) fn as_slice(&self) -> &[(FeatId, usize)]
        ensures { result.now ≡ self.now }
    {
        self.items.as_slice()
    }

    /// The value by a feature.
    pub(crate) fn find(&self, feature: FeatId) -> Option<usize>
        ensures { result ≡ value_in self.now feature }
    {
        value_among(self.items.as_slice(), feature)
    }

    /// Adds a value behind those by lower features.
    pub(crate) fn insert(&mut self, feature: FeatId, node: usize) -> Result<(), AllocError>
        ensures { OnOk result (self.new ≡ insert_value self.old feature node) }
    {
        let place = self.place(feature);
        self.items.insert(place, (feature, node))?;
        Ok(())
    }

    /// How many values come before the first one by a higher feature.
    fn place(&self, feature: FeatId) -> usize
        ensures within { result ≤ length self.now }
        ensures at { (m : ℕ) → insert self.now result (feature, m) ≡ insert_value self.now feature m }
    {
        for (i, value) in self.items.as_slice().iter().enumerate() {
            if feature.index() < value.0.index() {
                return i;
            }
        }
        self.items.len()
    }
}

/// The value by a feature in a list of values.
pub(crate) fn value_among(values: &[(FeatId, usize)], feature: FeatId) -> Option<usize>
    ensures { result ≡ value_in values.now feature }
{
    for value in values {
        if value.0.index() == feature.index() {
            return Some(value.1);
        }
    }
    None
}

/// The value of a class by a feature.
pub(crate) fn value_of(values: &[Values], class: usize, feature: FeatId) -> Option<usize>
    ensures { result ≡ value_in (values_in values.now class) feature }
{
    match values.get(class) {
        Some(those) => those.find(feature),
        None => None,
    }
}

/// No values for each of `count` classes.
pub(crate) fn no_values(alloc: Global, count: usize) -> Result<Vec<Values>, AllocError>
    ensures { IfOk result (λ v. v.items ≡ replicate count []) }
{
    let mut values = Vec::with_capacity(alloc, count)?;
    for _class in 0..count {
        values.push(Values::new(alloc))?;
    }
    Ok(values)
}

/// The values of a class in order.
pub(crate) fn values_of(values: &[Values], class: usize) -> &[(FeatId, usize)]
    ensures { result.now ≡ values_in values.now class }
{
    match values.get(class) {
        Some(those) => those.as_slice(),
        None => &[],
    }
}

//! The variables of a declaration, and the descriptions that its templates stand for.
ghost use Rattle.std.specs.Prelude.{◌≡◌, [], length, IfOk, OnErr};
ghost use Rattle.ale_logic.specs.Descriptions.{description};
ghost use Rattle.ale_macro.specs.Templates.{template_data};
ghost use Rattle.ale_macro.specs.Expanding.{expansion};
ghost use Rattle.ale_macro.specs.Slots.{numbered};
ghost use Rattle.ale_macro.specs.Calls.{CallsKnown};
ghost use Rattle.ale_expansion.specs.Met.{mark_name, names_in, no_name};

use crate::mark::Mark;
use crate::met::Met;
use crate::walk::Walk;
use ale_logic::Desc;
use ale_macro::{Library, Template};
use ale_text::{Row, Text};
use std::alloc::{AllocError, Global};
use std::marker::Model;

/// The variables of a declaration's descriptions that were met so far, and the paths of calls that lead to them. Contracts see
/// the list of where they come from, in order of their slots.
#[derive(Drop)]
pub struct Variables {
    met: Met,
}

impl Model for Variables {
    ghost use Rattle.std.specs.Prelude.{List};
    ghost use Rattle.ale_macro.specs.Expansions.{Origin};

    ghost Value = { List Origin };

    ghost view = { λ v. v.met.variables };
}

impl Variables {
    /// None.
    pub fn new(alloc: Global) -> Variables
        ensures { result ≡ [] }
    {
        Variables {
            met: Met::new(alloc),
        }
    }

    /// How many there are.
    pub fn count(&self) -> usize
        ensures { result ≡ length self.now }
    {
        self.met.slots().len()
    }

    /// The name of each slot: that which the variable has in the declaration's own scope, and `_` for one of a macro's scope. The
    /// error is want of memory.
    pub fn names(&self, alloc: Global, scope: &[Text]) -> Result<Row<Text>, AllocError>
        ensures { IfOk result (λ r. r ≡ names_in scope.now self.now) }
    {
        // the path of no calls is the first, which tells the declaration's own scope
        let _root = self.met.root();
        let marks = self.met.slots();
        let mut names = Vec::new(alloc);
        for mark in marks {
            let name = name_of(alloc, scope, mark)?;
            names.push(name)?;
        }
        Ok(Row::of(names))
    }
}

/// The name in this scope of the variable, `_` where it is of another.
fn name_of(alloc: Global, scope: &[Text], mark: &Mark) -> Result<Text, AllocError>
    ensures { IfOk result (λ t. t ≡ mark_name scope.now mark.now) }
{
    if mark.path == 0 {
        if let Some(name) = scope.get(mark.number as usize) {
            return name.copy(alloc);
        }
    }
    underscore(alloc)
}

/// The name `_`.
fn underscore(alloc: Global) -> Result<Text, AllocError>
    ensures { IfOk result (λ t. t ≡ no_name) }
{
    let name = String::from_str(alloc, "_")?;
    Ok(Text::of(name))
}

/// The description that the template stands for, its variables with slots after those that were met before. The error is want
/// of memory, and after it no variables are left.
pub fn expand(
    alloc: Global,
    library: &Library,
    variables: &mut Variables,
    template: &Template,
) -> Result<Desc, AllocError>
    requires known { CallsKnown library.now.macros (template_data template.now) }
    ensures value { IfOk result (λ d. (description d, variables.new) ≡ numbered variables.old (expansion library.now (template_data template.now))) }
    ensures none_left { OnErr result (variables.new ≡ []) }
{
    let met = std::mem::replace(&mut variables.met, Met::new(alloc));
    let mut walk = Walk::start(alloc, library, met)?;
    let desc = walk.run(template)?;
    let Walk { met, .. } = walk;
    variables.met = met;
    Ok(desc)
}

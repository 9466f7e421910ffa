//! Macros by their numbers, none of which leads back to itself.
ghost use Rattle.std.specs.Prelude.{◌≡◌, ℕ, ◌<◌, List, length, map, get_or, IfOk, IfSome, nat_le, ◌&&◌, if◌then◌else◌, Some, None};
ghost use Rattle.ale_order.specs.Orders.{IsFirstCyclic, IsOrder};
ghost use Rattle.ale_macro.specs.Templates.{TemplateData, template_data, macro_at, macro_data};
ghost use Rattle.ale_macro.specs.Expansions.{within_limits};
ghost use Rattle.ale_macro.specs.Expanding.{expansion, IsProjection};
ghost use Rattle.ale_macro.specs.Calls.{BodiesKnown, CallsKnown, IsLibrary, calls_of};

use crate::calls::calls;
use crate::counting::{count, tallies};
use crate::depth::Depth;
use crate::macros::Macro;
use crate::projecting::{entry_at, projections};
use crate::reaching::{depths, reach};
use crate::tally::Tally;
use crate::template::Template;
use ale_list::ListTypes;
use ale_order::{Dependence, order_of_dependence};
use std::alloc::{AllocError, Global};
use std::marker::Model;

/// Macros by their numbers, each of which calls only ones that are there and none of which leads back to itself; and the
/// types of lists.
#[derive(Drop)]
pub struct Library {
    lists: ListTypes,
    macros: Vec<Macro>,
    /// For each macro the parameter for which it stands, where it stands for one and nothing else.
    projections: Vec<Option<Option<u32>>>,
    /// How many parts calls of each macro have.
    tallies: Vec<Option<Tally>>,
    /// How deep calls of each macro are nested.
    depths: Vec<Option<Depth>>,
}

impl Model for Library {
    ghost use Rattle.std.specs.Prelude.{map};
    ghost use Rattle.ale_macro.specs.Templates.{macro_data};
    ghost use Rattle.ale_macro.specs.Expanding.{LibraryData};
    ghost use Rattle.ale_macro.specs.Codes.{library_code};
    ghost use Rattle.ale_macro.specs.Tables.{AreTables};

    ghost Value = { LibraryData };

    ghost coded = { library_code };

    ghost view = { λ l. record { lists = l.lists; macros = map macro_data l.macros.items } };

    ghost invariant = { λ l. AreTables (record { lists = l.lists; macros = map macro_data l.macros.items }) l.projections.items l.tallies.items l.depths.items };
}

/// What macros are found to be.
#[derive(Drop)]
pub enum Built {
    /// Calls of them can be replaced.
    Library(Library),
    /// The first of them that leads back to itself.
    Cyclic(usize),
}

/// The parts, where they and the nesting are within the limits of a description.
fn limited(parts: u64, nesting: u64) -> Option<u32>
    ensures { result ≡ (if nat_le parts 100000 && nat_le nesting 4000 then Some parts else None) }
{
    if parts <= 100_000 && nesting <= 4_000 {
        Some(parts as u32)
    } else {
        None
    }
}

impl Library {
    ghost use Rattle.ale_macro.specs.declared.library.Built.TheVariants as built;

    /// The library of these macros, by their places; or the first of them that leads back to itself. The error is want of
    /// memory.
    pub fn build(alloc: Global, lists: ListTypes, macros: Vec<Macro>) -> Result<Built, AllocError>
        requires known { BodiesKnown (map macro_data macros.items) (map macro_data macros.items) }
        ensures library { (l : _) → result ≡ Ok (built.Library l) → l ≡ record { lists = lists; macros = map macro_data macros.items } }
        ensures cyclic { (m : ℕ) → result ≡ Ok (built.Cyclic m) → IsFirstCyclic (calls_of (map macro_data macros.items)) m }
    {
        let calls = calls(alloc, macros.as_slice())?;
        match order_of_dependence(alloc, macros.len(), calls.as_slice())? {
            Dependence::Cyclic(m) => Ok(Built::Cyclic(m)),
            Dependence::InOrder(order) => {
                let library = Library::in_order(alloc, lists, macros, order.as_slice())?;
                Ok(Built::Library(library))
            }
        }
    }

    /// The library of these macros, by an order in which each calls only those before it.
    fn in_order(
        alloc: Global,
        lists: ListTypes,
        macros: Vec<Macro>,
        order: &[usize],
    ) -> Result<Library, AllocError>
        requires known { BodiesKnown (map macro_data macros.items) (map macro_data macros.items) }
        requires order { IsOrder (calls_of (map macro_data macros.items)) (length macros.items) order.now }
        ensures { IfOk result (λ l. l ≡ record { lists = lists; macros = map macro_data macros.items }) }
    {
        let projections = projections(alloc, macros.as_slice(), order)?;
        let tallies = tallies(alloc, macros.as_slice(), order)?;
        let depths = depths(alloc, macros.as_slice(), order)?;
        Ok(Library {
            lists,
            macros,
            projections,
            tallies,
            depths,
        })
    }

    /// The types and features of lists.
    pub fn lists(&self) -> ListTypes
        ensures types { result ≡ self.now.lists }
        ensures library { IsLibrary self.now }
    {
        self.lists
    }

    /// How many macros there are.
    pub fn count(&self) -> usize
        ensures { result ≡ length self.now.macros }
    {
        self.macros.len()
    }

    /// How many parameters the macro has.
    pub fn parameters(&self, m: usize) -> u32
        requires { m < length self.now.macros }
        ensures { result ≡ (macro_at self.now.macros m).parameters }
    {
        self.macros[m].parameters
    }

    /// What a call of the macro stands for.
    pub fn body(&self, m: usize) -> &Template
        requires { m < length self.now.macros }
        ensures { template_data result.now ≡ (macro_at self.now.macros m).body }
    {
        &self.macros[m].body
    }

    /// The parameter for which each call of the macro stands, where it stands for one and nothing else.
    pub fn projection(&self, m: usize) -> Option<u32>
        requires { m < length self.now.macros }
        ensures { IfSome result (λ j. IsProjection self.now m j) }
    {
        entry_at(self.projections.as_slice(), m)
    }

    /// How many parts the template has when all is put in, where that is within the limits of a description: at most
    /// 100,000 parts, nested at most 4,000 deep. The error is want of memory.
    pub fn measured(&self, alloc: Global, template: &Template) -> Result<Option<u32>, AllocError>
        requires known { CallsKnown self.now.macros (template_data template.now) }
        ensures { IfOk result (λ n. n ≡ within_limits (expansion self.now (template_data template.now))) }
    {
        let mut tally = Tally::none(alloc, 0)?;
        count(template, self.tallies.as_slice(), 1, &mut tally);
        let mut depth = Depth::none(alloc, 0)?;
        reach(template, self.depths.as_slice(), Some(0), &mut depth);
        Ok(limited(tally.own, depth.own))
    }
}

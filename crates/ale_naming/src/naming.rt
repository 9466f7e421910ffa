//! What names mean in a grammar.
ghost use Rattle.std.specs.Prelude.{◌≡◌, ◌<◌, ℕ, IfOk, MatchResult, Option, Some, None, Result, Ok, Err, map, length};
ghost use Rattle.ale_declaration.specs.Declarations.{declaration_data};
ghost use Rattle.ale_vocabulary.specs.Vocabularies.{vocabulary_of};
ghost use Rattle.ale_macro.specs.declared.library.Built.TheVariants as kind;
ghost use Rattle.ale_macro.specs.Calls.{IsLibrary};
ghost use Rattle.ale_describe.specs.Names.{NamesData};
ghost use Rattle.ale_describe.specs.Macros.{names_of};
ghost use Rattle.ale_describe.specs.Laws.{FitsNames};
ghost use Rattle.ale_naming.specs.Faults.{Fault};
ghost use Rattle.ale_naming.specs.Naming.{AreNamed};
ghost use Rattle.ale_naming.specs.Answers.{IsFound, NamesGive, IsToldFault};
ghost use Rattle.ale_naming.specs.Rounds.{first_cyclic, named_of, nothing_earlier, round_one, round_two};

use crate::fault::NameFault;
use crate::laws::naming_law;
use crate::round_one::round_one;
use crate::round_three::round_three;
use crate::round_two::round_two;
use ale_declaration::Declaration;
use ale_describe::{Names, macros};
use ale_list::list_types_or_none;
use ale_macro::{Built, Library};
use ale_signature::Signature;
use ale_vocabulary::Vocabulary;
use std::alloc::{AllocError, Global};

/// The macros of declarations whose mentions are all known, or the first that leads back to itself.
fn built(
    alloc: Global,
    sig: &Signature,
    vocabulary: &Vocabulary,
    decls: &[Declaration],
) -> Result<Built, AllocError>
    requires own { vocabulary.now ≡ vocabulary_of (map declaration_data decls.now) }
    requires known { round_one sig.now vocabulary.now 1 (map declaration_data decls.now) ≡ None }
    ensures library { (l : _) → result ≡ Ok (kind.Library l) → l ≡ (names_of sig.now (map declaration_data decls.now)).library }
    ensures cyclic { (m : ℕ) → result ≡ Ok (kind.Cyclic m) → first_cyclic (names_of sig.now (map declaration_data decls.now)).library.macros ≡ Some m }
    ensures below { (m : ℕ) → result ≡ Ok (kind.Cyclic m) → m < length vocabulary.now.macros }
{
    let macros = macros(alloc, sig, vocabulary, decls)?;
    let lists = list_types_or_none(sig);
    let built = Library::build(alloc, lists, macros)?;
    Ok(built)
}

/// The fault of declarations of which this macro is the first that leads back to itself.
fn cyclic_fault(
    alloc: Global,
    vocabulary: &Vocabulary,
    first: usize,
    decls: &[Declaration],
) -> NameFault
    requires own { vocabulary.now ≡ vocabulary_of (map declaration_data decls.now) }
    requires below { first < length vocabulary.now.macros }
    ensures { IsFound result (round_two vocabulary.now (Some first) 1 nothing_earlier (map declaration_data decls.now)) }
{
    match round_two(alloc, vocabulary, Some(first), decls) {
        Err(fault) => fault,
        Ok(()) => unreachable!(),
    }
}

/// No macro of a library leads back to itself.
fn is_library(library: &Library)
    ensures { IsLibrary library.now }
{
    let _lists = library.lists();
}

/// What names mean in declarations whose mentions are all known, by their library.
fn named(
    alloc: Global,
    sig: &Signature,
    vocabulary: Vocabulary,
    library: Library,
    decls: &[Declaration],
) -> Result<Names, NameFault>
    requires own { vocabulary ≡ vocabulary_of (map declaration_data decls.now) }
    requires library { library ≡ (names_of sig.now (map declaration_data decls.now)).library }
    requires known { round_one sig.now vocabulary 1 (map declaration_data decls.now) ≡ None }
    ensures { NamesGive result (named_of sig.now (map declaration_data decls.now)) }
{
    is_library(&library);
    round_two(alloc, &vocabulary, None, decls)?;
    let names = Names::of(vocabulary, library);
    round_three(alloc, sig, &names, decls)?;
    Ok(names)
}

/// What names mean in these declarations, by the three rounds.
fn by_rounds(alloc: Global, sig: &Signature, decls: &[Declaration]) -> Result<Names, NameFault>
    ensures { NamesGive result (named_of sig.now (map declaration_data decls.now)) }
{
    let vocabulary = Vocabulary::of(alloc, decls)?;
    round_one(alloc, sig, &vocabulary, decls)?;
    match built(alloc, sig, &vocabulary, decls)? {
        Built::Cyclic(first) => Err(cyclic_fault(alloc, &vocabulary, first, decls)),
        Built::Library(library) => named(alloc, sig, vocabulary, library, decls),
    }
}

/// What names mean in the grammar of these declarations.
///
/// # Errors
///
/// `At(k, e)` where declaration `k`, counted from 1, has the first fault of three rounds, each over all declarations in order.
/// First, from left to right in a declaration: `UnknownType`, `UnknownFeature`, `UnknownMacro`, `UnknownPredicate` and
/// `NoListTypes` for what is mentioned and not there. Then `MacroTwice` at the later of two macros of one name and number of
/// parameters, `MacroCycle` at a macro whose calls lead back to it, `TwoHeads` and `NoDaughter` at a rule, `BadDirective` at a
/// number out of its limit (8 for `lex_rule_depth`, 16 for `chain_length`) or at what was given before. Then `TooBig` where a
/// description that is no macro's has more than 100,000 parts or is nested more than 4,000 deep when all macros and lists are put
/// in, or all up to here have more than 4,000,000 parts. `NoMemory` comes where memory runs out.
pub fn names_of(alloc: Global, sig: &Signature, decls: &[Declaration]) -> Result<Names, NameFault>
    ensures exact { NamesGive result (named_of sig.now (map declaration_data decls.now)) }
    ensures found { MatchResult result (λ n. AreNamed sig.now (map declaration_data decls.now) (Ok n)) (λ e. IsToldFault (AreNamed sig.now (map declaration_data decls.now)) e) }
    ensures only { (answer : Result NamesData Fault) → AreNamed sig.now (map declaration_data decls.now) answer → NamesGive result answer }
    ensures fits { IfOk result (λ n. FitsNames sig.now n) }
{
    naming_law();
    sig.built_law();
    by_rounds(alloc, sig, decls)
}

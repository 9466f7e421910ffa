//! The second round: declarations that do not go with those before them, or lead back to themselves.
ghost use Rattle.std.specs.Prelude.{◌≡◌, IfOk, map, nat_le, codes};
ghost use Rattle.std.specs.Str.{chars};
ghost use Rattle.ale_declaration.specs.Declarations.{declaration_data, element_data};
ghost use Rattle.ale_naming.specs.Answers.{Refuses};
ghost use Rattle.ale_naming.specs.Faults.{heads, has_daughter};
ghost use Rattle.ale_naming.specs.Rounds.{rule_fault, directive_fault, macro_fault, misplaced, round_two, nothing_earlier, is_same};

use crate::earlier::{Earlier, came_before};
use crate::fault::NameFault;
use ale_declaration::{Declaration, Part};
use ale_text::Text;
use ale_vocabulary::{NameError, Vocabulary};
use std::alloc::{AllocError, Global};

/// The greatest depth of lexical rules.
const GREATEST_DEPTH: u32 = 8;

/// The greatest length of chains.
const GREATEST_CHAIN: u32 = 16;

/// Whether two of the elements are semantic heads.
fn has_two_heads(elements: &[Part]) -> bool
    ensures { result ≡ nat_le 2 (heads (map element_data elements.now)) }
{
    let mut found = false;
    for element in elements {
        if let Part::Head(_) = element {
            if found {
                return true;
            }
            found = true;
        }
    }
    false
}

/// Whether one of the elements is a daughter.
fn has_daughter(elements: &[Part]) -> bool
    ensures { result ≡ has_daughter (map element_data elements.now) }
{
    for element in elements {
        match element {
            Part::Goal(_) => {}
            _ => return true,
        }
    }
    false
}

/// The fault of a rule.
fn rule_fault(
    alloc: Global,
    name: &Text,
    elements: &[Part],
) -> Result<Option<NameError>, AllocError>
    ensures { IfOk result (λ o. o ≡ rule_fault name.now (map element_data elements.now)) }
{
    if has_two_heads(elements) {
        return Ok(Some(NameError::TwoHeads(name.copy(alloc)?)));
    }
    if has_daughter(elements) {
        return Ok(None);
    }
    Ok(Some(NameError::NoDaughter(name.copy(alloc)?)))
}

/// The fault of a directive.
fn directive_fault(alloc: Global, is_bad: bool, word: &str) -> Result<Option<NameError>, AllocError>
    ensures { IfOk result (λ o. o ≡ directive_fault is_bad (chars word.now)) }
{
    if is_bad {
        Ok(Some(NameError::BadDirective(Text::of(String::from_str(alloc, word)?))))
    } else {
        Ok(None)
    }
}

/// Whether the macro with this number is the first that leads back to itself.
fn is_same(cyclic: Option<usize>, number: Option<usize>) -> bool
    ensures { result ≡ is_same cyclic number }
{
    match (cyclic, number) {
        (Some(cyclic), Some(number)) => cyclic == number,
        _ => false,
    }
}

/// The fault of a macro with this number, where the last one before it is this.
fn macro_fault(
    alloc: Global,
    cyclic: Option<usize>,
    last: Option<usize>,
    name: &Text,
    arity: usize,
    number: Option<usize>,
) -> Result<Option<NameError>, AllocError>
    ensures { IfOk result (λ o. o ≡ macro_fault cyclic last name.now arity number) }
{
    if came_before(last, number) {
        return Ok(Some(NameError::MacroTwice(name.copy(alloc)?, arity)));
    }
    if is_same(cyclic, number) {
        return Ok(Some(NameError::MacroCycle(name.copy(alloc)?, arity)));
    }
    Ok(None)
}

/// The fault of a declaration, by what stands before it.
#[tactic(auto, using(crate::proofs::Adding::semantics_word, crate::proofs::Adding::depth_word, crate::proofs::Adding::length_word))]
fn misplaced(
    alloc: Global,
    vocabulary: &Vocabulary,
    cyclic: Option<usize>,
    earlier: Earlier,
    declaration: &Declaration,
) -> Result<Option<NameError>, AllocError>
    ensures { IfOk result (λ o. o ≡ misplaced vocabulary.now cyclic earlier (declaration_data declaration.now)) }
{
    match declaration {
        Declaration::Macro(name, parameters, _) => {
            let arity = parameters.as_slice().len();
            let number = vocabulary.macro_named(name.as_str(), arity);
            macro_fault(alloc, cyclic, earlier.last_macro, name, arity, number)
        }
        Declaration::Rule(name, _, elements) => rule_fault(alloc, name, elements.as_slice()),
        Declaration::Semantics(_) => directive_fault(alloc, earlier.semantics, "semantics"),
        Declaration::LexDepth(depth) => {
            let is_bad = *depth > GREATEST_DEPTH || earlier.lex_depth;
            directive_fault(alloc, is_bad, "lex_rule_depth")
        }
        Declaration::ChainLength(length) => {
            let is_bad = *length > GREATEST_CHAIN || earlier.chain_length;
            directive_fault(alloc, is_bad, "chain_length")
        }
        _ => Ok(None),
    }
}

/// Refuses the first declaration that does not go with those before it, or leads back to itself.
pub(crate) fn round_two(
    alloc: Global,
    vocabulary: &Vocabulary,
    cyclic: Option<usize>,
    decls: &[Declaration],
) -> Result<(), NameFault>
    ensures { Refuses result (round_two vocabulary.now cyclic 1 nothing_earlier (map declaration_data decls.now)) }
{
    let mut earlier = Earlier::nothing();
    for (index, declaration) in decls.iter().enumerate() {
        if let Some(error) = misplaced(alloc, vocabulary, cyclic, earlier, declaration)? {
            return Err(NameFault::At(index + 1, error));
        }
        earlier = earlier.with(vocabulary, declaration);
    }
    Ok(())
}

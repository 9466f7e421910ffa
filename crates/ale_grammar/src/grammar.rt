//! The program that declarations make, or why they are refused.
ghost use Rattle.std.specs.Prelude.{◌≡◌, IfOk, MatchResult, Result, Ok, map};
ghost use Rattle.ale_declaration.specs.Declarations.{declaration_data};
ghost use Rattle.ale_program.specs.Views.{program};
ghost use Rattle.ale_describe.specs.Declaring.{AreKnownDeclarations};
ghost use Rattle.ale_describe.specs.Laws.{FitsNames};
ghost use Rattle.ale_describe.specs.Macros.{names_of};
ghost use Rattle.ale_naming.specs.Faults.{AreRight, Fault};
ghost use Rattle.ale_grammar.specs.Answers.{IsTold, ResolvedGives, resolved_data};
ghost use Rattle.ale_grammar.specs.Assembling.{HaveBoundLines, IsAssembled};
ghost use Rattle.ale_grammar.specs.Building.{IsMade, made, said_or};
ghost use Rattle.ale_grammar.specs.Laws.{resolved_by};
ghost use Rattle.ale_grammar.specs.Programs.{program_of, usual_chain_length, usual_lex_depth};
ghost use Rattle.ale_grammar.specs.Written.{KeepsWritten};
ghost use Rattle.ale_grammar.specs.Resolving.{IsResolved, ResolvedData, resolved_of};

use crate::building::{Building, built};
use crate::laws::resolve_law;
use ale_declaration::Declaration;
use ale_describe::Names;
use ale_naming::{NameFault, names_of};
use ale_program::{DEFAULT_CHAIN_LENGTH, DEFAULT_LEX_DEPTH, Parts, Program};
use ale_signature::Signature;
use ale_text::Row;
use std::alloc::{AllocError, Global};

/// A program, and what the names of its declarations mean.
#[derive(Drop)]
pub struct Resolved {
    /// The program, which owns the signature.
    pub program: Program,
    pub names: Names,
}

/// How many levels of lexical rules there are: 2 where nothing is said.
#[tactic(auto, unfolding(crate::specs::Programs::usual_lex_depth))]
fn lex_depth(said: Option<u32>) -> u32
    ensures { result ≡ said_or usual_lex_depth said }
{
    match said {
        Some(depth) => depth,
        None => DEFAULT_LEX_DEPTH,
    }
}

/// How many rules lead at most from a pivot to a node with its semantics: 4 where nothing is said.
#[tactic(auto, unfolding(crate::specs::Programs::usual_chain_length))]
fn chain_length(said: Option<u32>) -> u32
    ensures { result ≡ said_or usual_chain_length said }
{
    match said {
        Some(length) => length,
        None => DEFAULT_CHAIN_LENGTH,
    }
}

/// The parts of a program over this signature.
fn parts_of(signature: Signature, building: Building) -> Parts
    ensures { IsMade signature (made building) result }
{
    let Building {
        preds,
        constraints,
        words,
        empties,
        lex_rules,
        rules,
        semantics,
        lex_depth: depth,
        chain_length: length,
    } = building;
    Parts {
        signature,
        preds: Row::of(preds),
        constraints: Row::of(constraints),
        words: Row::of(words),
        empties: Row::of(empties),
        lex_rules: Row::of(lex_rules),
        rules: Row::of(rules),
        semantics,
        lex_depth: lex_depth(depth),
        chain_length: chain_length(length),
    }
}

/// The parts of the program of these declarations.
fn assembled(
    alloc: Global,
    signature: Signature,
    names: &Names,
    decls: &[Declaration],
) -> Result<Parts, AllocError>
    requires own { names.now ≡ names_of signature (map declaration_data decls.now) }
    requires known { AreKnownDeclarations signature names.now.vocabulary (map declaration_data decls.now) }
    ensures { IfOk result (λ p. IsAssembled signature (map declaration_data decls.now) p) }
{
    let building = built(alloc, &signature, names, decls)?;
    Ok(parts_of(signature, building))
}

/// The program of declarations that are right.
fn program_of(
    alloc: Global,
    signature: Signature,
    names: &Names,
    decls: &[Declaration],
) -> Result<Program, AllocError>
    requires own { names.now ≡ names_of signature (map declaration_data decls.now) }
    requires right { AreRight signature (map declaration_data decls.now) }
    requires fits { FitsNames signature names.now }
    requires bound { HaveBoundLines (map declaration_data decls.now) }
    ensures program { IfOk result (λ p. program p ≡ program_of signature (map declaration_data decls.now)) }
    ensures written { IfOk result (λ p. KeepsWritten p (map declaration_data decls.now)) }
    ensures signature { IfOk result (λ p. p.signature ≡ signature) }
{
    signature.built_law();
    let parts = assembled(alloc, signature, names, decls)?;
    Ok(Program::of(parts))
}

/// The program of declarations that are right, with what their names mean.
fn with_names(
    alloc: Global,
    signature: Signature,
    names: Names,
    decls: &[Declaration],
) -> Result<Resolved, NameFault>
    requires own { names ≡ names_of signature (map declaration_data decls.now) }
    requires right { AreRight signature (map declaration_data decls.now) }
    requires fits { FitsNames signature names }
    requires bound { HaveBoundLines (map declaration_data decls.now) }
    ensures exact { ResolvedGives result (Ok (resolved_of signature (map declaration_data decls.now))) }
    ensures written { IfOk result (λ r. KeepsWritten r.program (map declaration_data decls.now)) }
    ensures signature { IfOk result (λ r. r.program.signature ≡ signature) }
{
    match program_of(alloc, signature, &names, decls) {
        Ok(program) => Ok(Resolved { program, names }),
        Err(_) => Err(NameFault::NoMemory),
    }
}

/// The program of these declarations, by what their names mean.
fn by_names(
    alloc: Global,
    signature: Signature,
    decls: &[Declaration],
) -> Result<Resolved, NameFault>
    requires bound { HaveBoundLines (map declaration_data decls.now) }
    ensures exact { ResolvedGives result (resolved_by signature (map declaration_data decls.now)) }
    ensures written { IfOk result (λ r. KeepsWritten r.program (map declaration_data decls.now)) }
    ensures signature { IfOk result (λ r. r.program.signature ≡ signature) }
{
    match names_of(alloc, &signature, decls) {
        Ok(names) => with_names(alloc, signature, names, decls),
        Err(fault) => Err(fault),
    }
}

/// The program of these declarations over this signature, and what their names mean. Descriptions and goals of one declaration
/// share their variables; clauses are by predicate in order of its first clause, everything else is in order of declaration; of
/// each directive the first counts. Rules, lexical rules and predicates keep their names, and lines of morphology their letters and
/// variables, which are numbered in order of first occurrence. The declarations are such as `read_declaration` gives: each variable
/// on the right side of a line of morphology stands on its left side.
///
/// # Errors
///
/// `At(k, e)` where declaration `k`, counted from 1, has the first fault of three rounds, each over all declarations in order.
/// First, from left to right in a declaration: `UnknownType`, `UnknownFeature`, `UnknownMacro`, `UnknownPredicate` and
/// `NoListTypes` for what is mentioned and not there. Then `MacroTwice` at the later of two macros of one name and number of
/// parameters, `MacroCycle` at a macro whose calls lead back to it, `TwoHeads` and `NoDaughter` at a rule, `BadDirective` at a
/// number out of its limit (8 for `lex_rule_depth`, 16 for `chain_length`) or at what was given before. Then `TooBig` where a
/// description that is no macro's has more than 100,000 parts or is nested more than 4,000 deep when all macros and lists are put
/// in, or all up to here have more than 4,000,000 parts. `NoMemory` comes where memory runs out, also where a declaration has
/// more than 2^32 variables.
pub fn resolve(
    alloc: Global,
    signature: Signature,
    decls: &[Declaration],
) -> Result<Resolved, NameFault>
    requires bound { HaveBoundLines (map declaration_data decls.now) }
    ensures exact { ResolvedGives result (resolved_by signature (map declaration_data decls.now)) }
    ensures written { IfOk result (λ r. KeepsWritten r.program (map declaration_data decls.now)) }
    ensures signature { IfOk result (λ r. r.program.signature ≡ signature) }
    ensures found { MatchResult result (λ r. IsResolved signature (map declaration_data decls.now) (Ok (resolved_data r))) (λ e. IsTold (IsResolved signature (map declaration_data decls.now)) e) }
    ensures only { (answer : Result ResolvedData Fault) → IsResolved signature (map declaration_data decls.now) answer → ResolvedGives result answer }
{
    resolve_law();
    by_names(alloc, signature, decls)
}

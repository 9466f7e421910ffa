//! Grammars that are loaded.
ghost use Rattle.std.specs.Prelude.{◌≡◌, ◌<◌, ◌≢◌, ◌↔◌, ℕ, suc, Result, Ok, Err, OnOk, IfOk, MatchResult, List, [], ◌++◌, map, length};
ghost use Rattle.std.specs.List.{All};
ghost use Rattle.ale_token.specs.Places.{Stands};
ghost use Rattle.ale_token.specs.Declarations.{IsDeclaration};
ghost use Rattle.ale_form.specs.Results.{Gives};
ghost use Rattle.ale_declared.specs.declared.decl.SigDecl.{SigDecl};
ghost use Rattle.ale_hierarchy.specs.Accepted.{IsAccepted};
ghost use Rattle.ale_hierarchy.specs.Hierarchy.{IsLawful};
ghost use Rattle.ale_hierarchy.specs.Order.{hierarchy};
ghost use Rattle.ale_hierarchy.specs.Faults.{fault_of};
ghost use Rattle.ale_declaration.specs.Declarations.{DeclarationData, declaration_data};
ghost use Rattle.ale_stage.specs.Stages.{declaration_is_built};
ghost use Rattle.ale_load.specs.declared.file_error.FileError.{FileError};
ghost use Rattle.ale_load.specs.declared.grammar_error.GrammarError.{GrammarError};
ghost use Rattle.ale_load.specs.declared.grammar_error.GrammarError.TheVariants.{NoMemory};
ghost use Rattle.ale_load.specs.Files.{IsCut, cut_of};
ghost use Rattle.ale_load.specs.Reading.{each_read, first_without};
ghost use Rattle.ale_load.specs.Grammars.{built_of, types_in, types_of, passed_in, passed_from, LoadedData, FitsLoaded, IsLoaded, grammar_fault, form_fault, signature_fault, name_fault, declaration_in, formed, declared_by, after_signature, load_of};
ghost use Rattle.ale_load.specs.Laws.{LoadLaw, LawfulLaw, DistinctLaw, LoadedLaw};
ghost use Rattle.ale_load.specs.Results.{LoadGives};
ghost use Rattle.ale_load.specs.Views.{parts_in, part_in, passed_data, loaded_data};

use crate::copying::copy_declared;
use crate::file::{Parts, cut};
use crate::file_error::FileError;
use crate::grammar_error::GrammarError;
use ale_declaration::{Declaration, one_declaration, read_declaration};
use ale_declared::{SigDecl, numbering_law};
use ale_describe::Names;
use ale_form::FormError;
use ale_naming::{NameFault, names_of, naming_law};
use ale_signature::{SigError, Signature, fault_law, signature_law};
use ale_stage::declaration_is_built;
use ale_term::add;
use ale_text::{Row, Text};
use std::alloc::{AllocError, Global};

/// A directive that was passed over.
#[derive(Debug, Drop)]
pub struct Passed {
    /// The number of its declaration, counted from 1.
    pub declaration: usize,
    /// Its name, or `-`.
    pub name: Text,
}

/// An accepted grammar.
#[derive(Drop)]
pub struct Loaded {
    /// Its types and features.
    pub signature: Signature,
    /// What its macros and predicates mean.
    pub names: Names,
    /// The directives that were passed over, in order.
    pub passed: Row<Passed>,
}

// Why a grammar whose file is not cut is refused.
fn grammar_fault(error: FileError) -> GrammarError
    ensures { result ≡ grammar_fault error }
{
    match error {
        FileError::TooLong => GrammarError::TooLong,
        FileError::NotText(place) => GrammarError::NotText(place),
        FileError::Unread(error) => GrammarError::Token(error),
        FileError::NoMemory => GrammarError::NoMemory,
    }
}

// Why a grammar is refused whose declaration with this number is.
fn form_fault(number: usize, error: FormError) -> GrammarError
    ensures { result ≡ form_fault number error }
{
    match error {
        FormError::NoMemory => GrammarError::NoMemory,
        error => GrammarError::Form(number, error),
    }
}

// Why a grammar is refused whose signature is.
fn signature_fault(error: SigError) -> GrammarError
    ensures { result ≡ signature_fault error }
{
    match error {
        SigError::NoMemory => GrammarError::NoMemory,
        error => GrammarError::Signature(error),
    }
}

// Why a grammar is refused that has a fault of names.
fn name_fault(fault: NameFault) -> GrammarError
    ensures { result ≡ name_fault fault }
{
    match fault {
        NameFault::At(number, error) => GrammarError::Names(number, error),
        NameFault::NoMemory => GrammarError::NoMemory,
    }
}

// The declaration of this range of tokens.
fn declaration(
    alloc: Global,
    parts: &Parts,
    range: (usize, usize),
) -> Result<Declaration, FormError>
    requires stand { All (Stands parts.now.text.now) parts.now.tokens.items }
    requires range { IsDeclaration parts.now.tokens.items range }
    ensures { Gives declaration_data result (declaration_in (part_in parts.now range)) }
{
    read_declaration(
        alloc,
        parts.text,
        &parts.tokens.as_slice()[range.0..range.1],
    )
}

// The declarations of all parts.
fn declarations(alloc: Global, parts: &Parts) -> Result<Vec<Declaration>, GrammarError>
    requires stand { All (Stands parts.now.text.now) parts.now.tokens.items }
    requires each { All {X = ℕ × ℕ} (IsDeclaration parts.now.tokens.items) parts.now.ranges.items }
    ensures { LoadGives (λ v. map declaration_data v.items) result (formed (each_read declaration_in 1 (parts_in parts.now))) }
{
    let ranges = parts.ranges.as_slice();
    let mut read = Vec::new(alloc);
    for range in ranges {
        match declaration(alloc, parts, *range) {
            Ok(declaration) => read.push(declaration)?,
            Err(error) => return Err(form_fault(read.len() + 1, error)),
        }
    }
    Ok(read)
}

// The number of the first declaration of a form that is not built.
fn first_unbuilt(declarations: &[Declaration]) -> Option<usize>
    ensures { result ≡ first_without declaration_is_built 1 (map declaration_data declarations.now) }
{
    for (index, declaration) in declarations.iter().enumerate() {
        if !declaration_is_built(declaration) {
            return Some(index + 1);
        }
    }
    None
}

// What is built of declarations: those of types, and the directives that were passed over.
#[derive(Drop)]
struct Sorted {
    types: Vec<SigDecl>,
    passed: Vec<Passed>,
}

// Keeps the declaration if it is one of types.
fn keep_types(
    alloc: Global,
    types: &mut Vec<SigDecl>,
    declaration: &Declaration,
) -> Result<(), AllocError>
    ensures { OnOk result (types.new.items ≡ types.old.items ++ types_in (built_of (declaration_data declaration.now))) }
{
    match declaration {
        Declaration::Sig(decl) => add(types, copy_declared(alloc, decl)?),
        _ => Ok(()),
    }
}

// Keeps the declaration with this number if it is a directive that is passed over.
fn keep_passed(
    alloc: Global,
    passed: &mut Vec<Passed>,
    declaration: &Declaration,
    number: usize,
) -> Result<(), AllocError>
    ensures { OnOk result (map passed_data passed.new.items ≡ map passed_data passed.old.items ++ passed_in number (built_of (declaration_data declaration.now))) }
{
    match declaration {
        Declaration::PassedOver(name) => add(
            passed,
            Passed {
                declaration: number,
                name: name.copy(alloc)?,
            },
        ),
        _ => Ok(()),
    }
}

// What is built of the declarations.
fn sort(alloc: Global, declarations: &[Declaration]) -> Result<Sorted, AllocError>
    ensures types { IfOk result (λ s. s.types.items ≡ types_of (map declaration_data declarations.now)) }
    ensures passed { IfOk result (λ s. map passed_data s.passed.items ≡ passed_from 1 (map declaration_data declarations.now)) }
{
    let mut types = Vec::new(alloc);
    let mut passed = Vec::new(alloc);
    for (index, declaration) in declarations.iter().enumerate() {
        keep_types(alloc, &mut types, declaration)?;
        keep_passed(alloc, &mut passed, declaration, index + 1)?;
    }
    Ok(Sorted { types, passed })
}

// The grammar of these declarations, which are all built.
fn built(alloc: Global, declarations: &[Declaration]) -> Result<Loaded, GrammarError>
    ensures exact { LoadGives loaded_data result (after_signature (map declaration_data declarations.now) (fault_of (declared_by (map declaration_data declarations.now)))) }
    ensures accepted { IfOk result (λ l. IsAccepted l.signature) }
    ensures lawful { IfOk result (λ l. IsLawful (hierarchy l.signature)) }
{
    let sorted = sort(alloc, declarations)?;
    let signature = match Signature::build(alloc, sorted.types.as_slice()) {
        Ok(signature) => signature,
        Err(error) => return Err(signature_fault(error)),
    };
    match names_of(alloc, &signature, declarations) {
        Ok(names) => Ok(Loaded {
            signature,
            names,
            passed: Row::of(sorted.passed),
        }),
        Err(fault) => Err(name_fault(fault)),
    }
}

// The grammar with these bytes.
fn load_in(alloc: Global, bytes: &[u8]) -> Result<Loaded, GrammarError>
    ensures exact { LoadGives loaded_data result (load_of bytes.now) }
    ensures accepted { IfOk result (λ l. IsAccepted l.signature) }
    ensures lawful { IfOk result (λ l. IsLawful (hierarchy l.signature)) }
{
    let parts = match cut(alloc, bytes) {
        Ok(parts) => parts,
        Err(error) => return Err(grammar_fault(error)),
    };
    let declarations = declarations(alloc, &parts)?;
    match first_unbuilt(declarations.as_slice()) {
        Some(number) => Err(GrammarError::NotBuilt(number)),
        None => built(alloc, declarations.as_slice()),
    }
}

/// Loads the grammar with these bytes.
///
/// # Errors
///
/// The first of these: `TooLong` for more than 4,194,304 bytes; `NotText(p)` where the bytes before `p` are the longest
/// prefix that is UTF-8; `Token` where the text has no tokens, or tokens have no end; `Form(k, e)` where declaration `k` is
/// the first that is refused, for `e`; `NotBuilt(k)` where it is the first of a form that is read and not built yet;
/// `Signature` for the fault of the signature; `Names(k, e)` where declaration `k` is refused for `e`, the first fault of
/// names. `NoMemory` comes where memory runs out.
pub fn load(alloc: Global, bytes: &[u8]) -> Result<Loaded, GrammarError>
    ensures exact { LoadGives loaded_data result (load_of bytes.now) }
    ensures found { MatchResult result (λ l. IsLoaded bytes.now (Ok (loaded_data l))) (λ e. e ≢ NoMemory → IsLoaded bytes.now (Err e)) }
    ensures only { (answer : Result LoadedData GrammarError) → IsLoaded bytes.now answer → LoadGives loaded_data result answer }
    ensures accepted { IfOk result (λ l. IsAccepted l.signature) }
    ensures lawful { IfOk result (λ l. IsLawful (hierarchy l.signature)) }
    ensures fits { IfOk result (λ l. FitsLoaded (loaded_data l)) }
{
    load_law();
    load_in(alloc, bytes)
}

/// The bytes of a grammar are loaded as one thing or refused for one cause, which the function that `load` carries out
/// gives; and the signature of a grammar that is loaded obeys the laws of a hierarchy, no two of its types have one name, and
/// its macros speak of its types and features and have no inequation.
pub fn load_law()
    ensures loads { LoadLaw }
    ensures lawful { LawfulLaw }
    ensures distinct { DistinctLaw }
    ensures fit { LoadedLaw }
{
    one_declaration();
    fault_law();
    signature_law();
    numbering_law();
    naming_law();
}

//! A program as it is built, declaration by declaration.
ghost use Rattle.std.specs.Prelude.{◌≡◌, ◌∷◌, [], OnOk, IfOk, map};
ghost use Rattle.std.specs.Option.{option_map};
ghost use Rattle.ale_term.specs.Terms.{term_data};
ghost use Rattle.ale_term.specs.Goals as written;
ghost use Rattle.ale_declaration.specs.Declarations as declaration;
ghost use Rattle.ale_declaration.specs.Declarations.{declaration_data};
ghost use Rattle.ale_declared.specs.Names.{number};
ghost use Rattle.ale_vocabulary.specs.First.{AllRight};
ghost use Rattle.ale_vocabulary.specs.Keys.{key};
ghost use Rattle.ale_vocabulary.specs.Knowing.{IsUnknown};
ghost use Rattle.ale_vocabulary.specs.Mentions.{mentions, mentions_of_declaration};
ghost use Rattle.ale_describe.specs.Declaring.{AreKnownDeclarations};
ghost use Rattle.ale_grammar.specs.Building.{first_said, made, nothing_made, with_declaration, with_declarations};

use crate::making::{clause_of, constraint_of, empty_of, lex_rule_of, narrow, rule_of, word_of};
use crate::pred::put_clause;
use ale_declaration::{Declaration, MorphLine, Part};
use ale_describe::Names;
use ale_program::{Constraint, EmptyDecl, LexRule, Pred, Rule, WordDecl};
use ale_signature::Signature;
use ale_term::{GoalTerm, Term};
use ale_text::Text;
use std::alloc::{AllocError, Global};

/// What is there of a program. Of each directive the first counts.
#[derive(Drop)]
pub(crate) struct Building {
    pub(crate) preds: Vec<Pred>,
    pub(crate) constraints: Vec<Constraint>,
    pub(crate) words: Vec<WordDecl>,
    pub(crate) empties: Vec<EmptyDecl>,
    pub(crate) lex_rules: Vec<LexRule>,
    pub(crate) rules: Vec<Rule>,
    pub(crate) semantics: Option<u32>,
    pub(crate) lex_depth: Option<u32>,
    pub(crate) chain_length: Option<u32>,
}

/// Nothing.
fn nothing(alloc: Global) -> Building
    ensures { made result ≡ nothing_made }
{
    Building {
        preds: Vec::new(alloc),
        constraints: Vec::new(alloc),
        words: Vec::new(alloc),
        empties: Vec::new(alloc),
        lex_rules: Vec::new(alloc),
        rules: Vec::new(alloc),
        semantics: None,
        lex_depth: None,
        chain_length: None,
    }
}

/// Adds a constraint.
fn add_constraint(
    alloc: Global,
    sig: &Signature,
    names: &Names,
    building: &mut Building,
    name: &Text,
    term: &Term,
    goal: &Option<GoalTerm>,
) -> Result<(), AllocError>
    requires known { AllRight (IsUnknown sig.now names.now.vocabulary) (mentions_of_declaration (declaration.constraint name.now (term_data term.now) (option_map written.goal_data goal.now))) }
    ensures { OnOk result (made building.new ≡ with_declaration sig.now names.now (made building.old) (declaration.constraint name.now (term_data term.now) (option_map written.goal_data goal.now))) }
{
    let new = constraint_of(alloc, sig, names, name, term, goal)?;
    building.constraints.push(new)?;
    Ok(())
}

/// Adds a clause to those of its predicate.
fn add_clause(
    alloc: Global,
    sig: &Signature,
    names: &Names,
    building: &mut Building,
    name: &Text,
    arguments: &[Term],
    body: &GoalTerm,
) -> Result<(), AllocError>
    requires known { AllRight (IsUnknown sig.now names.now.vocabulary) (mentions_of_declaration (declaration.clause name.now (map term_data arguments.now) (written.goal_data body.now))) }
    ensures { OnOk result (made building.new ≡ with_declaration sig.now names.now (made building.old) (declaration.clause name.now (map term_data arguments.now) (written.goal_data body.now))) }
{
    let clause = clause_of(alloc, sig, names, arguments, body)?;
    let place = names
        .vocabulary()
        .predicate_named(name.as_str(), arguments.len());
    let arity = narrow(arguments.len())?;
    put_clause(alloc, &mut building.preds, place, name, arity, clause)
}

/// Adds a word.
fn add_word(
    alloc: Global,
    sig: &Signature,
    names: &Names,
    building: &mut Building,
    word: &Text,
    term: &Term,
) -> Result<(), AllocError>
    requires known { AllRight (IsUnknown sig.now names.now.vocabulary) (mentions (term_data term.now)) }
    ensures { OnOk result (made building.new ≡ with_declaration sig.now names.now (made building.old) (declaration.word word.now (term_data term.now))) }
{
    let new = word_of(alloc, sig, names, word, term)?;
    building.words.push(new)?;
    Ok(())
}

/// Adds a category without a word.
fn add_empty(
    alloc: Global,
    sig: &Signature,
    names: &Names,
    building: &mut Building,
    term: &Term,
) -> Result<(), AllocError>
    requires known { AllRight (IsUnknown sig.now names.now.vocabulary) (mentions (term_data term.now)) }
    ensures { OnOk result (made building.new ≡ with_declaration sig.now names.now (made building.old) (declaration.empty (term_data term.now))) }
{
    let new = empty_of(alloc, sig, names, term)?;
    building.empties.push(new)?;
    Ok(())
}

/// Adds a lexical rule.
fn add_lex_rule(
    alloc: Global,
    sig: &Signature,
    names: &Names,
    building: &mut Building,
    name: &Text,
    input: &Term,
    output: &Term,
    goal: &Option<GoalTerm>,
    lines: &[MorphLine],
) -> Result<(), AllocError>
    requires known { AllRight (IsUnknown sig.now names.now.vocabulary) (mentions_of_declaration (declaration.lex_rule name.now (term_data input.now) (term_data output.now) (option_map written.goal_data goal.now) lines.now)) }
    ensures { OnOk result (made building.new ≡ with_declaration sig.now names.now (made building.old) (declaration.lex_rule name.now (term_data input.now) (term_data output.now) (option_map written.goal_data goal.now) lines.now)) }
{
    let new = lex_rule_of(alloc, sig, names, name, input, output, goal, lines)?;
    building.lex_rules.push(new)?;
    Ok(())
}

/// Adds a rule.
fn add_rule(
    alloc: Global,
    sig: &Signature,
    names: &Names,
    building: &mut Building,
    name: &Text,
    mother: &Term,
    parts: &[Part],
) -> Result<(), AllocError>
    requires known { AllRight (IsUnknown sig.now names.now.vocabulary) (mentions_of_declaration (declaration.rule name.now (term_data mother.now) (map declaration.element_data parts.now))) }
    ensures { OnOk result (made building.new ≡ with_declaration sig.now names.now (made building.old) (declaration.rule name.now (term_data mother.now) (map declaration.element_data parts.now))) }
{
    let new = rule_of(alloc, sig, names, name, mother, parts)?;
    building.rules.push(new)?;
    Ok(())
}

/// What was said first.
fn first_said(said: Option<u32>, now: u32) -> Option<u32>
    ensures { result ≡ first_said said (now ∷ []) }
{
    match said {
        Some(said) => Some(said),
        None => Some(now),
    }
}

/// Sets the predicate that gives the semantics, where none is set.
fn set_semantics(
    sig: &Signature,
    names: &Names,
    building: &mut Building,
    name: &Text,
) -> Result<(), AllocError>
    requires known { AllRight (IsUnknown sig.now names.now.vocabulary) (mentions_of_declaration (declaration.semantics name.now)) }
    ensures { OnOk result (made building.new ≡ with_declaration sig.now names.now (made building.old) (declaration.semantics name.now)) }
{
    let number = semantics_number(sig, names, name)?;
    building.semantics = first_said(building.semantics, number);
    Ok(())
}

/// The number of the predicate that gives the semantics, which has two arguments; a number beyond 32 bits is out of memory.
fn semantics_number(sig: &Signature, names: &Names, name: &Text) -> Result<u32, AllocError>
    requires known { AllRight (IsUnknown sig.now names.now.vocabulary) (mentions_of_declaration (declaration.semantics name.now)) }
    ensures { IfOk result (λ s. s ≡ number names.now.vocabulary.predicates (key name.now 2)) }
{
    match names.vocabulary().predicate_named(name.as_str(), 2) {
        Some(found) => narrow(found),
        None => unreachable!(),
    }
}

/// Adds what the declaration says.
fn add(
    alloc: Global,
    sig: &Signature,
    names: &Names,
    building: &mut Building,
    declaration: &Declaration,
) -> Result<(), AllocError>
    requires known { AllRight (IsUnknown sig.now names.now.vocabulary) (mentions_of_declaration (declaration_data declaration.now)) }
    ensures { OnOk result (made building.new ≡ with_declaration sig.now names.now (made building.old) (declaration_data declaration.now)) }
{
    match declaration {
        Declaration::Cons(name, term, goal) => {
            add_constraint(alloc, sig, names, building, name, term, goal)
        }
        Declaration::Clause(name, arguments, body) => add_clause(
            alloc,
            sig,
            names,
            building,
            name,
            arguments.as_slice(),
            body,
        ),
        Declaration::Word(word, term) => add_word(alloc, sig, names, building, word, term),
        Declaration::Empty(term) => add_empty(alloc, sig, names, building, term),
        Declaration::LexRule(name, input, output, goal, lines) => add_lex_rule(
            alloc,
            sig,
            names,
            building,
            name,
            input,
            output,
            goal,
            lines.as_slice(),
        ),
        Declaration::Rule(name, mother, parts) => add_rule(
            alloc,
            sig,
            names,
            building,
            name,
            mother,
            parts.as_slice(),
        ),
        Declaration::Semantics(name) => set_semantics(sig, names, building, name),
        Declaration::LexDepth(depth) => {
            building.lex_depth = first_said(building.lex_depth, *depth);
            Ok(())
        }
        Declaration::ChainLength(length) => {
            building.chain_length = first_said(building.chain_length, *length);
            Ok(())
        }
        Declaration::Sig(_) | Declaration::Macro(_, _, _) | Declaration::PassedOver(_) => Ok(()),
    }
}

/// What these declarations say, one after another.
pub(crate) fn built(
    alloc: Global,
    sig: &Signature,
    names: &Names,
    declarations: &[Declaration],
) -> Result<Building, AllocError>
    requires known { AreKnownDeclarations sig.now names.now.vocabulary (map declaration_data declarations.now) }
    ensures { IfOk result (λ b. made b ≡ with_declarations sig.now names.now nothing_made (map declaration_data declarations.now)) }
{
    let mut building = nothing(alloc);
    for declaration in declarations {
        add(alloc, sig, names, &mut building, declaration)?;
    }
    Ok(building)
}

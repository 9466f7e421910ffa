//! What each declaration says, its names looked up.
ghost use Rattle.std.specs.Prelude.{◌≡◌, ◌++◌, IfOk, map};
ghost use Rattle.ale_relation.specs.Has.{Has};
ghost use Rattle.ale_declared.specs.Names.{number};
ghost use Rattle.std.specs.Option.{option_map};
ghost use Rattle.ale_term.specs.Terms.{term_data};
ghost use Rattle.ale_term.specs.Goals as written;
ghost use Rattle.ale_declaration.specs.Declarations as declaration;
ghost use Rattle.ale_vocabulary.specs.First.{AllRight};
ghost use Rattle.ale_vocabulary.specs.Knowing.{IsUnknown};
ghost use Rattle.ale_vocabulary.specs.Mentions.{mentions, mentions_of_each, mentions_of_goal, mentions_of_some, mentions_of_element, mentions_of_elements, mentions_of_declaration};
ghost use Rattle.ale_program.specs.Goals.{goal_data};
ghost use Rattle.ale_program.specs.Views.{clause_data, constraint_data, word_data, empty_data, lex_rule_data, element_data, rule_data};
ghost use Rattle.ale_grammar.specs.Lines.{line_of};
ghost use Rattle.ale_grammar.specs.Sides.{with_lines};
ghost use Rattle.ale_grammar.specs.Programs.{some_goal_described, clause_of, constraint_of, word_of, empty_of, lex_rule_of, element_described, elements_described, rule_of};

use crate::lines::lines_of;
use ale_declaration::{MorphLine, Part};
use ale_describe::{Names, Scope};
use ale_logic::Desc;
use ale_program::{Clause, Constraint, Element, EmptyDecl, Goal, LexRule, Rule, WordDecl};
use ale_signature::{Signature, TypeId};
use ale_term::{GoalTerm, Term};
use ale_text::{Row, Text};
use std::alloc::{AllocError, Global};

/// The number in 32 bits; a larger one is out of memory.
pub(crate) fn narrow(number: usize) -> Result<u32, AllocError>
    ensures { IfOk result (λ n. n ≡ number) }
{
    if number > 4_294_967_295 {
        return Err(AllocError);
    }
    Ok(number as u32)
}

/// The goal, where there is one.
fn some_goal_of(
    alloc: Global,
    sig: &Signature,
    names: &Names,
    scope: &mut Scope,
    goal: &Option<GoalTerm>,
) -> Result<Option<Goal>, AllocError>
    requires known { AllRight (IsUnknown sig.now names.now.vocabulary) (mentions_of_some (option_map written.goal_data goal.now)) }
    ensures { IfOk result (λ g. (option_map goal_data g, scope.new) ≡ some_goal_described sig.now names.now scope.old (option_map written.goal_data goal.now)) }
{
    match goal {
        Some(goal) => {
            let made = names.describe_goal(alloc, sig, scope, goal)?;
            Ok(Some(made))
        }
        None => Ok(None),
    }
}

/// The clause with these arguments of its head and this body.
pub(crate) fn clause_of(
    alloc: Global,
    sig: &Signature,
    names: &Names,
    arguments: &[Term],
    body: &GoalTerm,
) -> Result<Clause, AllocError>
    requires known { AllRight (IsUnknown sig.now names.now.vocabulary) (mentions_of_each (map term_data arguments.now) ++ mentions_of_goal (written.goal_data body.now)) }
    ensures { IfOk result (λ c. clause_data c ≡ clause_of sig.now names.now (map term_data arguments.now) (written.goal_data body.now)) }
{
    let mut scope = Scope::new(alloc);
    let args = names.describe_each(alloc, sig, &mut scope, arguments)?;
    let body = names.describe_goal(alloc, sig, &mut scope, body)?;
    let slots = narrow(scope.count())?;
    Ok(Clause { args, body, slots })
}

/// The type with this name.
fn type_of(sig: &Signature, name: &Text) -> TypeId
    requires { Has sig.now.types name.now }
    ensures { result ≡ number sig.now.types name.now }
{
    match sig.type_named(name.as_str()) {
        Some(found) => found,
        None => unreachable!(),
    }
}

/// The constraint on the type with this name.
pub(crate) fn constraint_of(
    alloc: Global,
    sig: &Signature,
    names: &Names,
    name: &Text,
    term: &Term,
    goal: &Option<GoalTerm>,
) -> Result<Constraint, AllocError>
    requires known { AllRight (IsUnknown sig.now names.now.vocabulary) (mentions_of_declaration (declaration.constraint name.now (term_data term.now) (option_map written.goal_data goal.now))) }
    ensures { IfOk result (λ c. constraint_data c ≡ constraint_of sig.now names.now name.now (term_data term.now) (option_map written.goal_data goal.now)) }
{
    let mut scope = Scope::new(alloc);
    let at = type_of(sig, name);
    let desc = names.describe(alloc, sig, &mut scope, term)?;
    let goal = some_goal_of(alloc, sig, names, &mut scope, goal)?;
    let slots = narrow(scope.count())?;
    Ok(Constraint {
        at,
        desc,
        goal,
        slots,
    })
}

/// The word with its description.
pub(crate) fn word_of(
    alloc: Global,
    sig: &Signature,
    names: &Names,
    word: &Text,
    term: &Term,
) -> Result<WordDecl, AllocError>
    requires known { AllRight (IsUnknown sig.now names.now.vocabulary) (mentions (term_data term.now)) }
    ensures { IfOk result (λ w. word_data w ≡ word_of sig.now names.now word.now (term_data term.now)) }
{
    let mut scope = Scope::new(alloc);
    let desc = names.describe(alloc, sig, &mut scope, term)?;
    let slots = narrow(scope.count())?;
    let word = word.copy(alloc)?;
    Ok(WordDecl { word, desc, slots })
}

/// The description of a category without a word.
pub(crate) fn empty_of(
    alloc: Global,
    sig: &Signature,
    names: &Names,
    term: &Term,
) -> Result<EmptyDecl, AllocError>
    requires known { AllRight (IsUnknown sig.now names.now.vocabulary) (mentions (term_data term.now)) }
    ensures { IfOk result (λ e. empty_data e ≡ empty_of sig.now names.now (term_data term.now)) }
{
    let mut scope = Scope::new(alloc);
    let desc = names.describe(alloc, sig, &mut scope, term)?;
    let slots = narrow(scope.count())?;
    Ok(EmptyDecl { desc, slots })
}

/// What a lexical rule says of entries: the input of those that it takes, the output of those that it makes.
#[derive(Drop)]
struct Sides {
    input: Desc,
    output: Desc,
    goal: Option<Goal>,
    /// How many slots their variables have.
    slots: u32,
}

/// The sides of a lexical rule: its input comes before its output, and both before its goal.
fn sides_of(
    alloc: Global,
    sig: &Signature,
    names: &Names,
    input: &Term,
    output: &Term,
    goal: &Option<GoalTerm>,
) -> Result<Sides, AllocError>
    requires known { AllRight (IsUnknown sig.now names.now.vocabulary) (mentions (term_data input.now) ++ mentions (term_data output.now) ++ mentions_of_some (option_map written.goal_data goal.now)) }
    ensures { IfOk result (λ s. (ls : _) → with_lines s ls ≡ lex_rule_of sig.now names.now (term_data input.now) (term_data output.now) (option_map written.goal_data goal.now) ls) }
{
    let mut scope = Scope::new(alloc);
    let input = names.describe(alloc, sig, &mut scope, input)?;
    let output = names.describe(alloc, sig, &mut scope, output)?;
    let goal = some_goal_of(alloc, sig, names, &mut scope, goal)?;
    let slots = narrow(scope.count())?;
    Ok(Sides {
        input,
        output,
        goal,
        slots,
    })
}

/// The lexical rule with these sides.
fn with_lines(
    alloc: Global,
    name: &Text,
    sides: Sides,
    lines: &[MorphLine],
) -> Result<LexRule, AllocError>
    ensures rule { IfOk result (λ r. lex_rule_data r ≡ with_lines sides lines.now) }
    ensures name { IfOk result (λ r. r.name ≡ name.now) }
    ensures lines { IfOk result (λ r. r.lines ≡ map line_of lines.now) }
{
    let lines = lines_of(alloc, lines)?;
    let name = name.copy(alloc)?;
    let Sides {
        input,
        output,
        goal,
        slots,
    } = sides;
    Ok(LexRule {
        name,
        input,
        output,
        goal,
        lines,
        slots,
    })
}

/// The lexical rule.
pub(crate) fn lex_rule_of(
    alloc: Global,
    sig: &Signature,
    names: &Names,
    name: &Text,
    input: &Term,
    output: &Term,
    goal: &Option<GoalTerm>,
    lines: &[MorphLine],
) -> Result<LexRule, AllocError>
    requires known { AllRight (IsUnknown sig.now names.now.vocabulary) (mentions (term_data input.now) ++ mentions (term_data output.now) ++ mentions_of_some (option_map written.goal_data goal.now)) }
    ensures rule { IfOk result (λ r. lex_rule_data r ≡ lex_rule_of sig.now names.now (term_data input.now) (term_data output.now) (option_map written.goal_data goal.now) lines.now) }
    ensures name { IfOk result (λ r. r.name ≡ name.now) }
    ensures lines { IfOk result (λ r. r.lines ≡ map line_of lines.now) }
{
    let sides = sides_of(alloc, sig, names, input, output, goal)?;
    with_lines(alloc, name, sides, lines)
}

/// The element of a rule.
fn element_of(
    alloc: Global,
    sig: &Signature,
    names: &Names,
    scope: &mut Scope,
    part: &Part,
) -> Result<Element, AllocError>
    requires known { AllRight (IsUnknown sig.now names.now.vocabulary) (mentions_of_element (declaration.element_data part.now)) }
    ensures { IfOk result (λ e. (element_data e, scope.new) ≡ element_described sig.now names.now scope.old (declaration.element_data part.now)) }
{
    match part {
        Part::Cat(term) => {
            let desc = names.describe(alloc, sig, scope, term)?;
            Ok(Element::Cat(desc))
        }
        Part::Cats(term) => {
            let desc = names.describe(alloc, sig, scope, term)?;
            Ok(Element::Cats(desc))
        }
        Part::Goal(goal) => {
            let goal = names.describe_goal(alloc, sig, scope, goal)?;
            Ok(Element::Goal(goal))
        }
        Part::Head(term) => {
            let desc = names.describe(alloc, sig, scope, term)?;
            Ok(Element::Head(desc))
        }
    }
}

/// The elements of a rule, one after another in one scope.
fn elements_of(
    alloc: Global,
    sig: &Signature,
    names: &Names,
    scope: &mut Scope,
    parts: &[Part],
) -> Result<Row<Element>, AllocError>
    requires known { AllRight (IsUnknown sig.now names.now.vocabulary) (mentions_of_elements (map declaration.element_data parts.now)) }
    ensures { IfOk result (λ es. (map element_data es, scope.new) ≡ elements_described sig.now names.now scope.old (map declaration.element_data parts.now)) }
{
    let mut found = Vec::new(alloc);
    for part in parts {
        let element = element_of(alloc, sig, names, scope, part)?;
        found.push(element)?;
    }
    Ok(Row::of(found))
}

/// The rule: its mother comes before its elements.
pub(crate) fn rule_of(
    alloc: Global,
    sig: &Signature,
    names: &Names,
    name: &Text,
    mother: &Term,
    parts: &[Part],
) -> Result<Rule, AllocError>
    requires known { AllRight (IsUnknown sig.now names.now.vocabulary) (mentions_of_declaration (declaration.rule name.now (term_data mother.now) (map declaration.element_data parts.now))) }
    ensures name { IfOk result (λ r. r.name ≡ name.now) }
    ensures rule { IfOk result (λ r. rule_data r ≡ rule_of sig.now names.now (term_data mother.now) (map declaration.element_data parts.now)) }
{
    let mut scope = Scope::new(alloc);
    let mother = names.describe(alloc, sig, &mut scope, mother)?;
    let elements = elements_of(alloc, sig, names, &mut scope, parts)?;
    let slots = narrow(scope.count())?;
    let name = name.copy(alloc)?;
    Ok(Rule {
        name,
        mother,
        elements,
        slots,
    })
}

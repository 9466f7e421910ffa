//! The macros and the predicates of a grammar.
ghost use Rattle.std.specs.Prelude.{◌≡◌, ◌∷◌, IfOk, OnOk, map};
ghost use Rattle.std.specs.Str.{chars};
ghost use Rattle.ale_declared.specs.Names.{named, numbered, is_named};
ghost use Rattle.ale_declaration.specs.Declarations.{declaration_data};
ghost use Rattle.ale_vocabulary.specs.Keys.{key};
ghost use Rattle.ale_vocabulary.specs.Vocabularies.{vocabulary_of, macro_key, predicate_key};

use crate::keys::Keys;
use ale_declaration::Declaration;
use ale_text::Text;
use std::alloc::{AllocError, Global};
use std::marker::Model;

/// The macros and the predicates that declarations give meaning to, told by name and number of arguments. Contracts see
/// their keys in order of their numbers.
#[derive(Drop)]
pub struct Vocabulary {
    macros: Keys,
    predicates: Keys,
}

impl Model for Vocabulary {
    ghost use Rattle.ale_vocabulary.specs.Vocabularies.{VocabularyData};

    ghost Value = { VocabularyData };

    ghost view = { λ v. record { macros = v.macros; predicates = v.predicates } };
}

/// Adds the macro that is declared.
fn add_macro(alloc: Global, macros: &mut Keys, declaration: &Declaration) -> Result<(), AllocError>
    ensures { OnOk result (macros.new ≡ numbered macros.old (macro_key (declaration_data declaration.now))) }
{
    match declaration {
        Declaration::Macro(name, parameters, _) => {
            macros.add(alloc, name, parameters.as_slice().len())
        }
        _ => Ok(()),
    }
}

/// Adds the predicate that a clause is of.
fn add_predicate(
    alloc: Global,
    predicates: &mut Keys,
    declaration: &Declaration,
) -> Result<(), AllocError>
    ensures { OnOk result (predicates.new ≡ numbered predicates.old (predicate_key (declaration_data declaration.now))) }
{
    match declaration {
        Declaration::Clause(name, arguments, _) => predicates.add(alloc, name, arguments.len()),
        _ => Ok(()),
    }
}

impl Vocabulary {
    /// What these declarations give meaning to.
    pub fn of(alloc: Global, decls: &[Declaration]) -> Result<Vocabulary, AllocError>
        ensures { IfOk result (λ v. v ≡ vocabulary_of (map declaration_data decls.now)) }
    {
        let mut macros = Keys::new(alloc);
        let mut predicates = Keys::new(alloc);
        for declaration in decls {
            add_macro(alloc, &mut macros, declaration)?;
            add_predicate(alloc, &mut predicates, declaration)?;
        }
        Ok(Vocabulary { macros, predicates })
    }

    /// The number of the macro with this name and so many parameters; None exactly where there is none. It takes no memory.
    pub fn macro_named(&self, name: &str, arity: usize) -> Option<usize>
        ensures { result ≡ named self.now.macros (key (chars name.now) arity) }
    {
        self.macros.named(name, arity)
    }

    /// The number of the predicate with this name and so many arguments; None exactly where no clause is of it. It takes no
    /// memory.
    pub fn predicate_named(&self, name: &str, arity: usize) -> Option<usize>
        ensures { result ≡ named self.now.predicates (key (chars name.now) arity) }
    {
        self.predicates.named(name, arity)
    }

    /// Whether there is a macro with this name and so many parameters.
    pub fn has_macro(&self, name: &Text, arity: usize) -> bool
        ensures { result ≡ is_named (key name.now arity) self.now.macros }
    {
        self.macro_named(name.as_str(), arity).is_some()
    }

    /// Whether a clause is of the predicate with this name and so many arguments.
    pub fn has_predicate(&self, name: &Text, arity: usize) -> bool
        ensures { result ≡ is_named (key name.now arity) self.now.predicates }
    {
        self.predicate_named(name.as_str(), arity).is_some()
    }
}

//! What a program is made of.
ghost use Rattle.std.specs.Prelude.{◌≡◌};
ghost use Rattle.ale_program.specs.Views.{no_parts};

use crate::clause::{Constraint, Pred};
use crate::element::Rule;
use crate::lexical::{EmptyDecl, LexRule, WordDecl};
use ale_signature::Signature;
use ale_text::Row;
use std::alloc::Global;

/// How many levels of lexical rules there are, where nothing is said.
pub const DEFAULT_LEX_DEPTH: u32 = 2;

/// How many rules lead at most from a pivot to a node with its semantics, where nothing is said.
pub const DEFAULT_CHAIN_LENGTH: u32 = 4;

/// What a program is made of. Predicates and constraints are named by their numbers.
#[derive(Drop)]
pub struct Parts {
    pub signature: Signature,
    pub preds: Row<Pred>,
    pub constraints: Row<Constraint>,
    pub words: Row<WordDecl>,
    pub empties: Row<EmptyDecl>,
    pub lex_rules: Row<LexRule>,
    pub rules: Row<Rule>,
    /// The predicate that relates a node to its semantics, where one is declared.
    pub semantics: Option<u32>,
    /// How many levels of lexical rules there are.
    pub lex_depth: u32,
    /// How many rules lead at most from a pivot to a node with its semantics.
    pub chain_length: u32,
}

impl Parts {
    /// The parts of a program that says nothing, over this signature, with the defaults. It takes no memory.
    pub fn none(alloc: Global, signature: Signature) -> Parts
        ensures { result ≡ no_parts signature }
    {
        Parts {
            signature,
            preds: Row::of(Vec::new(alloc)),
            constraints: Row::of(Vec::new(alloc)),
            words: Row::of(Vec::new(alloc)),
            empties: Row::of(Vec::new(alloc)),
            lex_rules: Row::of(Vec::new(alloc)),
            rules: Row::of(Vec::new(alloc)),
            semantics: None,
            lex_depth: DEFAULT_LEX_DEPTH,
            chain_length: DEFAULT_CHAIN_LENGTH,
        }
    }
}

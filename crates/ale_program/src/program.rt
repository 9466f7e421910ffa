//! Programs.
ghost use Rattle.std.specs.Prelude.{◌≡◌, ◌↔◌, IsTrue};
ghost use Rattle.ale_hierarchy.specs.Hierarchy.{IsLawful};
ghost use Rattle.ale_hierarchy.specs.Order.{hierarchy};
ghost use Rattle.ale_logic.specs.Fitting.{FitsProgram, IsPlainProgram};
ghost use Rattle.ale_program.specs.Views.{no_parts, program};
ghost use Rattle.ale_program.specs.Kept.{IsProgram};
ghost use Rattle.ale_program.specs.Fragment.{HasPlainClauses, HasPlainRules};

use crate::clause::{Constraint, Pred};
use crate::element::Rule;
use crate::fragment::{
    constraints_in_fragment, lex_rules_in_fragment, preds_in_fragment, rules_in_fragment,
};
use crate::lexical::{EmptyDecl, LexRule, WordDecl};
use crate::parts::Parts;
use ale_signature::Signature;
use std::alloc::Global;
use std::marker::Model;

/// A program: parts that fit one another.
#[derive(Drop)]
pub struct Program {
    parts: Parts,
}

impl Model for Program {
    ghost use Rattle.std.specs.Coded.{codes};
    ghost use Rattle.ale_logic.specs.contracts.desc.Desc as desc;
    ghost use Rattle.ale_program.specs.contracts.goal.Goal as goal;
    ghost use Rattle.ale_program.specs.declared.parts.Parts.{Parts};
    ghost use Rattle.ale_program.specs.Kept.{IsProgram};

    ghost Value = { Parts };

    ghost coded = { Prim.hlevel (codes, desc.the_row.coded, goal.the_row.coded) };

    ghost view = { λ p. p.parts };

    ghost invariant = { λ p. IsProgram p.parts };
}

impl Program {
    /// The program that says nothing, over this signature. It takes no memory.
    #[tactic(auto, using(crate::proofs::Keeping::nothing_kept))]
    pub fn empty(alloc: Global, signature: Signature) -> Program
        ensures { result ≡ no_parts signature }
    {
        signature.built_law();
        Program::of(Parts::none(alloc, signature))
    }

    /// The program of these parts. It takes no memory.
    pub fn of(parts: Parts) -> Program
        requires { IsProgram parts }
        ensures { result ≡ parts }
    {
        Program { parts }
    }

    /// The parts of the program.
    pub fn into_parts(self) -> Parts
        ensures value { result ≡ self }
        ensures kept { IsProgram self }
    {
        let Program { parts } = self;
        parts
    }

    /// What holds of each program: its parts are kept to its signature and to one another, and so it fits the signature, whose
    /// laws hold.
    pub fn program_law(&self)
        ensures kept { IsProgram self.now }
        ensures fits { FitsProgram (hierarchy self.now.signature) (program self.now) }
        ensures lawful { IsLawful (hierarchy self.now.signature) }
    {
        self.parts.signature.built_law();
    }

    /// Whether no cut, negation or if-then stands in it. It takes no memory.
    #[tactic(auto, using(crate::proofs::PlainParts::plain_from, crate::proofs::PlainParts::plain_clauses, crate::proofs::PlainParts::plain_rules))]
    pub fn in_fragment(&self) -> bool
        ensures { IsTrue result ↔ IsPlainProgram (program self.now) }
    {
        self.has_plain_clauses() && self.has_plain_rules()
    }

    /// Whether none stands in its clauses and constraints.
    fn has_plain_clauses(&self) -> bool
        ensures { IsTrue result ↔ HasPlainClauses self.now }
    {
        preds_in_fragment(self.preds()) && constraints_in_fragment(self.constraints())
    }

    /// Whether none stands in its lexical rules and rules.
    fn has_plain_rules(&self) -> bool
        ensures { IsTrue result ↔ HasPlainRules self.now }
    {
        lex_rules_in_fragment(self.lex_rules()) && rules_in_fragment(self.rules())
    }

    /// The signature of its types and features.
    pub fn signature(&self) -> &Signature
        ensures { result.now ≡ self.now.signature }
    {
        &self.parts.signature
    }

    /// The predicates, by their numbers.
    pub fn preds(&self) -> &[Pred]
        ensures { result.now ≡ self.now.preds }
    {
        self.parts.preds.as_slice()
    }

    /// The constraints, by their numbers.
    pub fn constraints(&self) -> &[Constraint]
        ensures { result.now ≡ self.now.constraints }
    {
        self.parts.constraints.as_slice()
    }

    /// The words, as they are declared.
    pub fn words(&self) -> &[WordDecl]
        ensures { result.now ≡ self.now.words }
    {
        self.parts.words.as_slice()
    }

    /// The categories without words, as they are declared.
    pub fn empties(&self) -> &[EmptyDecl]
        ensures { result.now ≡ self.now.empties }
    {
        self.parts.empties.as_slice()
    }

    /// The lexical rules, as they are declared.
    pub fn lex_rules(&self) -> &[LexRule]
        ensures { result.now ≡ self.now.lex_rules }
    {
        self.parts.lex_rules.as_slice()
    }

    /// The rules, as they are declared.
    pub fn rules(&self) -> &[Rule]
        ensures { result.now ≡ self.now.rules }
    {
        self.parts.rules.as_slice()
    }

    /// The predicate that relates a node to its semantics. None exactly where none is declared.
    pub fn semantics(&self) -> Option<u32>
        ensures { result ≡ self.now.semantics }
    {
        self.parts.semantics
    }

    /// How many levels of lexical rules there are.
    pub fn lex_depth(&self) -> u32
        ensures { result ≡ self.now.lex_depth }
    {
        self.parts.lex_depth
    }

    /// How many rules lead at most from a pivot to a node with its semantics.
    pub fn chain_length(&self) -> u32
        ensures { result ≡ self.now.chain_length }
    {
        self.parts.chain_length
    }
}

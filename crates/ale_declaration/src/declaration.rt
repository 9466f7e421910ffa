//! Declarations as they are written.
use ale_declared::SigDecl;
use ale_term::{GoalTerm, Term};
use ale_text::{Row, Text};
use sqlite_items::Items;

/// An element of a rule, as it is written.
#[derive(Debug, Drop)]
pub enum Part {
    /// `cat> D`: a daughter.
    Cat(Term),
    /// `cats> D`: a list of daughters.
    Cats(Term),
    /// `goal> G`: a goal.
    Goal(GoalTerm),
    /// `sem_head> D`: the semantic head.
    Head(Term),
}

/// A piece of a side of a line of morphology.
#[derive(Debug, Drop)]
pub enum LinePart {
    /// The characters of an atom.
    Piece(Text),
    /// A variable, for one character or more.
    Slot(Text),
}

/// A line of morphology: what the left side matches becomes what the right side says.
#[derive(Debug, Drop)]
pub struct MorphLine {
    pub left: Row<LinePart>,
    pub right: Row<LinePart>,
}

/// A declaration of a grammar, as it is written.
#[derive(Debug, Drop)]
pub enum Declaration {
    /// `t sub [..]`, with `intro [..]` or without, `t intro [..]` and `ext([..])`: types.
    Sig(SigDecl),
    /// `t cons D` and `t cons D goal G`: a constraint on a type.
    Cons(Text, Term, Option<GoalTerm>),
    /// `m macro D` and `m(X,..) macro D`: a macro, with the names of its parameters.
    Macro(Text, Row<Text>, Term),
    /// `p if G` and `p(D,..) if G`: a definite clause.
    Clause(Text, Items<Term>, GoalTerm),
    /// `w ---> D`: a word.
    Word(Text, Term),
    /// `empty D`: an empty category.
    Empty(Term),
    /// `n lex_rule D **> D morphs ..`, with `if G` before `morphs` or without: a lexical rule with its lines.
    LexRule(Text, Term, Term, Option<GoalTerm>, Row<MorphLine>),
    /// `n rule D ===> ..`: a phrase structure rule.
    Rule(Text, Term, Items<Part>),
    /// `semantics p`: the predicate that gives the semantics.
    Semantics(Text),
    /// `:- lex_rule_depth(N)`, where N is at most 2^32 - 1.
    LexDepth(u32),
    /// `:- chain_length(N)`, where N is at most 2^32 - 1.
    ChainLength(u32),
    /// Any other directive, by its name.
    PassedOver(Text),
}

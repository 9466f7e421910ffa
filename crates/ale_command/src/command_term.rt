use ale_term::{GoalTerm, Term};
use ale_text::{Row, Text};

/// A command, as it is written.
#[derive(Debug, Drop)]
pub enum CommandTerm {
    /// `mgsat D`: the most general satisfiers of a description.
    Mgsat(Term),
    /// `query G`: the proofs of a goal.
    Query(GoalTerm),
    /// `lex w`: the categories of a word.
    Lex(Text),
    /// `rec [w,..]`: the categories of a sentence, which may have no words.
    Rec(Row<Text>),
    /// `gen D`: the sentences for a description.
    Gen(Term),
    /// `code p/n`: the code of the predicate of this name with so many arguments; n has at most nine digits.
    Code(Text, u32),
}

//! What holds of all readings.
ghost use Rattle.std.specs.Prelude.{◌≡◌, ℕ, List};
ghost use Rattle.ale_term.specs.declared.lexeme.Lexeme.{Lexeme};
ghost use Rattle.ale_term.specs.Terms.{TermData};
ghost use Rattle.ale_term.specs.Goals.{GoalData};
ghost use Rattle.ale_term.specs.Grammar.{IsDescription, IsPart, IsCall, IsGoal, IsGoalPart};

/// Lexemes stand for no more than one description, for no more than one call, and for no more than one goal.
pub fn one_reading()
    ensures description { (xs : List Lexeme) (t u : TermData) → IsDescription xs t → IsDescription xs u → t ≡ u }
    ensures element { (xs : List Lexeme) (t u : TermData) → IsPart xs t → IsPart xs u → t ≡ u }
    ensures call { (xs : List Lexeme) (m n : List ℕ) (ts us : List TermData) → IsCall xs m ts → IsCall xs n us → (m ≡ n) × (ts ≡ us) }
    ensures goal { (xs : List Lexeme) (g h : GoalData) → IsGoal xs g → IsGoal xs h → g ≡ h }
    ensures goal_element { (xs : List Lexeme) (g h : GoalData) → IsGoalPart xs g → IsGoalPart xs h → g ≡ h }
{}

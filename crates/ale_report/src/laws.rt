//! What is written of answers.
ghost use Rattle.ale_report.specs.Written.{WrittenLaws, TextsLaw};

use ale_search::search_law;

/// The laws of what is written of the answers to a description: they are its most general satisfiers, root to root, and
/// the text of each fixes it.
pub fn written_law()
    ensures satisfiers { WrittenLaws }
    ensures texts { TextsLaw }
{
    search_law();
}

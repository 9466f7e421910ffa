ghost use Rattle.ale_search.specs.Solutions.{SearchLaws};

use ale_run_law::enough_law;
use ale_step_law::{logic_law, step_law};

/// What every search for a description means: its answers are solutions, and so is each model that an answer
/// subsumes; a search that ended has all solutions up to subsumption; it ends within its budget exactly where
/// nothing waits after as many visits, and without disjunction two visits for each part and two more are
/// enough.
pub fn search_law()
    ensures { SearchLaws }
{
    step_law();
    logic_law();
    enough_law();
}

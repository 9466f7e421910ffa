ghost use Rattle.ale_relation.specs.Paths.{ReachesIsTransitive, LeadsIsTransitive};

/// The law that paths compose: what leads to the start of a path leads to its end.
pub fn paths_compose()
    ensures reaches { ReachesIsTransitive }
    ensures leads { LeadsIsTransitive }
{}

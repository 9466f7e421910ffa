ghost use Rattle.ale_morphism.specs.MorphismLaws.{RootsDetermine, Identity, Compose, ComposePairs, NotTransitive, SomeBotIsPlain, Variants};
ghost use Rattle.ale_morphism.specs.VisibleLaws.{VisibleLaw, VisibleTwice, VisibleRooted, VisibleSubsumes};

/// What morphisms obey: two of them agree on the nodes that the roots reach; the identity is one; one after
/// another is one where differing pairs stay apart, and not always; and structures whose roots reach all nodes, and that
/// subsume each other, are alphabetic variants.
pub fn morphism_laws()
    ensures determine { RootsDetermine }
    ensures identity { Identity }
    ensures compose { Compose }
    ensures compose_pairs { ComposePairs }
    ensures not_transitive { NotTransitive }
    ensures plain { SomeBotIsPlain }
    ensures variants { Variants }
{}

/// What the visible part of a structure is: its nodes are those that are reached, in order; it is its own
/// visible part; without differing pairs the roots reach all of it; and it subsumes what the structure
/// subsumes.
pub fn visible_laws()
    ensures part { VisibleLaw }
    ensures twice { VisibleTwice }
    ensures rooted { VisibleRooted }
    ensures subsumes { VisibleSubsumes }
{}

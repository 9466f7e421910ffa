ghost use Rattle.ale_graph.specs.FirstStep.{FirstStepLaws};
ghost use Rattle.ale_graph.specs.Universal.{ClosureLaw};

/// The law of the closure, of any lawful hierarchy and any facts that fit: it is total and extensional, the
/// facts hold in it and wherever it has a morphism, it maps into every structure that fulfils the facts in
/// exactly one way, and there is none only where no structure does.
pub fn closure_law()
    ensures { ClosureLaw }
{}

/// The law of the closure's first step: it gives the least classes and types, which the facts determine,
/// and none exactly where the facts ask for two types without a join.
pub fn first_step_laws()
    ensures { FirstStepLaws }
{}

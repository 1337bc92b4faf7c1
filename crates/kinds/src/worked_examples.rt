// Worked examples at the edges, where two readings are near.
ghost use Rattle.kinds.specs.Examples.{Examples};

/// Each example holds of the definition, by computation.
#[tactic(auto, using(crate::proofs::Examples::examples))]
pub fn examples_hold()
    ensures { Examples }
{}

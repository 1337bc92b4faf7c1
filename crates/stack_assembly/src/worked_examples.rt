// Worked examples of the definition.
ghost use Rattle.stack_assembly.specs.Cards.{Cards, CarriesOver};
ghost use Rattle.stack_assembly.specs.Edges.{Edges};

/// The thirteen cards, each from a text through compile and a fresh state to its calls.
#[tactic(auto, using(crate::proofs::Cards::cards))]
pub fn cards_hold()
    ensures { Cards }
{}

/// The cards hold on all buffers of the same lengths, whatever words these hold.
pub fn cards_carry_over()
    ensures { CarriesOver }
{}

/// An example for each rule on which no card turns.
#[tactic(auto, using(crate::proofs::Edges::edges))]
pub fn edges_hold()
    ensures { Edges }
{}

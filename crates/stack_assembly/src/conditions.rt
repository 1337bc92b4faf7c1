// What holds of every call, and of every list of calls.
ghost use Rattle.stack_assembly.specs.Evaluator.{NoChoice};
ghost use Rattle.stack_assembly.specs.Host.{OneToOne};
ghost use Rattle.stack_assembly.specs.Left.{ReleasedZero, Untouched};
ghost use Rattle.stack_assembly.specs.Refusals.{RefusalsLeaveAll, StepMade};
ghost use Rattle.stack_assembly.specs.Sizes.{LargerSizesChangeNothing};

/// Whatever keeps the promises of compile, of a fresh start and of each call does just what the definition does.
#[tactic(auto, using(crate::proofs::Promises::no_choice))]
pub fn promises_leave_no_choice()
    ensures { NoChoice }
{}

/// What a host lends, unless it is forged, and the definition's machine are one to one.
#[tactic(auto, using(crate::proofs::Promises::one_to_one))]
pub fn lent_and_machine_are_one_to_one()
    ensures { OneToOne }
{}

/// A refused call leaves all that it was lent as it was; a refused run has made the steps that it counts, and no more.
#[tactic(auto, using(crate::proofs::Refusals::leaves_all))]
pub fn refusals_leave_all()
    ensures { RefusalsLeaveAll }
{}

/// Larger tables, stacks and budgets change no answer but a limit.
pub fn larger_sizes_change_nothing()
    ensures { LargerSizesChangeNothing }
{}

/// Released words are zero, up to the greatest depth that a call reaches: so stacks of zeros have zeros above their depths after any list of calls.
#[tactic(auto, using(crate::proofs::Left::released_zero))]
pub fn released_words_are_zero()
    ensures { ReleasedZero }
{}

/// Words of a stack from the greatest depth on that a call reaches stay; depths stay within their buffers, and these as long as they are.
#[tactic(auto, using(crate::proofs::Left::untouched))]
pub fn words_beyond_reach_stay()
    ensures { Untouched }
{}

/// A step that answers 0 was made, and counts as one.
#[tactic(auto, using(crate::proofs::Refused::step_made))]
pub fn steps_that_answer_0_are_made()
    ensures { StepMade }
{}

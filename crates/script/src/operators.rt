// Where a step's operator comes from.
ghost use Rattle.stack_assembly.specs.Script as definition;
ghost use Rattle.stack_assembly.specs.Step.{fetched};
ghost use Rattle.std.specs.Prelude.{◌≡◌};
ghost use Rattle.records.specs.Lent as lent;

use crate::fetch::fetch;
use crate::memo::Memo;
use records::Script;
use words::Fetched;

/// Where a step takes its operators from: one script, by their indexes.
pub trait Operators {
    ghost says: { Self → definition.Script };

    /// The operator at an index.
    fn get_operator(&mut self, at: u32) -> Fetched
        ensures same { says self.new ≡ says self.old }
        ensures found { result ≡ fetched (says self.old) at };
}

// Looked up each time.
impl<'a> Operators for Script<'a> {
    ghost says = { lent.says };

    #[inline(always)]
    fn get_operator(&mut self, at: u32) -> Fetched {
        fetch(*self, at)
    }
}

// Remembered.
impl<'a, const N: usize, const OWN: usize> Operators for Memo<'a, N, OWN> {
    ghost says = { λ m. lent.says m.script };

    #[inline(always)]
    fn get_operator(&mut self, at: u32) -> Fetched {
        self.fetch(at)
    }
}

/// The operators of a single step: a type of its own, so that a step has the evaluator's match to itself.
// With a `Script` in its place a step call took 35 % more instructions, straight lines 19 to 80 %.
#[derive(Clone, Copy)]
pub struct Once<'a> {
    pub script: Script<'a>,
}

impl<'a> Operators for Once<'a> {
    ghost says = { λ o. lent.says o.script };

    #[inline(always)]
    fn get_operator(&mut self, at: u32) -> Fetched {
        fetch(self.script, at)
    }
}

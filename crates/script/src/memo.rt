// What a run remembers of a script: neither text nor tables change while steps are made.
ghost use Rattle.std.specs.Prelude.{◌≡◌, ◌<◌};
ghost use Rattle.stack_assembly.specs.Step.{fetched};
ghost use Rattle.records.specs.Lent.{says};
ghost use Rattle.script.specs.Memory.{place, remembered, Remembers};

use crate::fetch::fetch;
use records::Script;
use words::{Fetched, Word};

// An operator, and the index that it was fetched at. The others end a run, so they are not kept. An enum of its own: an Option of an index and a `Fetched` could
// hold those too.
#[derive(Clone, Copy)]
enum Entry {
    Empty,
    Integer { next: u32, value: u32 },
    Word { next: u32, word: Word },
}

/// A script, and what a run remembers of it in `N` places: the integers and words fetched so far. The first `OWN` operators have a place each; the others share the
/// rest, by their index modulo `N - OWN`, where the one that was fetched last is remembered.
#[derive(Drop)]
pub struct Memo<'a, const N: usize, const OWN: usize> {
    pub script: Script<'a>,
    known: [Entry; N],
    ghost some: { OWN < N },
    ghost right: { Remembers (says script) known },
}

impl<'a, const N: usize, const OWN: usize> Memo<'a, N, OWN> {
    ghost use Rattle.std.specs.Prelude.{◌≡◌, ◌<◌};
    ghost use Rattle.stack_assembly.specs.Step.{fetched};
    ghost use Rattle.records.specs.Lent.{says};
    ghost use Rattle.script.specs.Memory.{place, remembered};

    /// Nothing is remembered at first.
    #[inline(always)]
    pub fn new(script: Script<'a>) -> Memo<'a, N, OWN>
        requires { OWN < N }
        ensures { result.script ≡ script.entry }
    {
        Memo {
            script,
            known: [Entry::Empty; N],
        }
    }

    // Where an operator is remembered.
    #[inline(always)]
    fn place(next: u32) -> usize
        requires { OWN < N }
        ensures place { result ≡ place N OWN next }
        ensures within { result < N }
    {
        let next = next as usize;
        if next < OWN {
            next
        } else {
            OWN + next % (N - OWN)
        }
    }

    /// The operator at an index, from the memo where it is there. An integer or a word is remembered then.
    #[inline(always)]
    pub fn fetch(&mut self, next: u32) -> Fetched
        ensures script { self.new.script ≡ self.old.script }
        ensures value { result ≡ fetched (says self.old.script) next }
        ensures known { self.new.known ≡ remembered result next (place N OWN next) self.old.known }
    {
        let entry = self.known[Self::place(next)];
        match entry {
            Entry::Integer { next: place, value } if place == next => Fetched::Integer(value),
            Entry::Word { next: place, word } if place == next => Fetched::Word(word),
            _ => self.fetch_anew(next),
        }
    }

    // In the loop of a run: by a call, what was first met there took half as much time again.
    #[inline(always)]
    #[tactic(auto, using(crate::proofs::Remembered::remembered))]
    fn fetch_anew(&mut self, next: u32) -> Fetched
        ensures script { self.new.script ≡ self.old.script }
        ensures value { result ≡ fetched (says self.old.script) next }
        ensures known { self.new.known ≡ remembered result next (place N OWN next) self.old.known }
    {
        let operator = fetch(self.script, next);
        let at = Self::place(next);
        match operator {
            Fetched::Integer(value) => self.known[at] = Entry::Integer { next, value },
            Fetched::Word(word) => self.known[at] = Entry::Word { next, word },
            _ => {}
        }
        operator
    }
}

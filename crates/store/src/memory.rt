// A linear memory, addressable per word.

use crate::stop::Stop;
use answers::Effect;

/// An address at or above the memory's length.
#[derive(Clone, Copy, PartialEq, Eq, Debug)]
pub struct InvalidAddress;

impl From<InvalidAddress> for Stop {
    ghost use Rattle.std.specs.Prelude.{◌≡◌};
    ghost use Rattle.store.specs.declared.stop.Stop.TheVariants.{Raised};
    ghost use Rattle.answers.specs.declared.effect.Effect.TheVariants as effect;

    ghost from_gives = { λ _ s. s ≡ Raised effect.InvalidAddress };

    #[inline(always)]
    fn from(_: InvalidAddress) -> Stop {
        Stop::Raised(Effect::InvalidAddress)
    }
}

/// A memory in a lent buffer: addresses count its words.
#[derive(Drop)]
pub struct Memory<'a> {
    pub words: &'a mut [u32],
}

impl<'a> Memory<'a> {
    ghost use Rattle.store.specs.Memory.{Reads, Writes, SameWords};

    /// The word at an address.
    #[inline(always)]
    pub fn read(&self, address: u32) -> Result<u32, InvalidAddress>
        ensures { Reads address self.now.words.now result }
    {
        self.words
            .get(address as usize)
            .copied()
            .ok_or(InvalidAddress)
    }

    /// Sets the word at an address; where there is none, nothing.
    #[inline(always)]
    pub fn write(&mut self, address: u32, value: u32) -> Result<(), InvalidAddress>
        ensures same { SameWords self.old self.new }
        ensures value { Writes address value self.old self.new result }
    {
        let address = address as usize;
        if address >= self.words.len() {
            return Err(InvalidAddress);
        }
        self.words[address] = value;
        Ok(())
    }
}

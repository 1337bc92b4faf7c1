// A stack of words in a lent buffer.

ghost use Rattle.std.specs.Prelude.{◌≡◌, ◌<◌, ◌≤◌, ◌+◌, length};
ghost use Rattle.std.specs.List.{copy_within};

/// A stack whose words stand from the front of its buffer, the top at `depth - 1`.
#[derive(Drop)]
pub struct Stack<'a> {
    pub words: &'a mut [u32],
    pub depth: usize,
    ghost within: { depth ≤ length words.now },
}

// The words between a place and an end move down by one, over the word at the place. Out of line, as it is rare.
#[inline(never)]
fn move_down(words: &mut [u32], place: usize, end: usize)
    requires { (place < end) × (end ≤ length words.old) }
    ensures { words.new ≡ copy_within words.old (place + 1) end place }
{
    words.copy_within(place + 1..end, place);
}

// The same, where often none stands between.
#[inline(always)]
fn close_gap(words: &mut [u32], place: usize, end: usize)
    requires { (place < end) × (end ≤ length words.old) }
    ensures { words.new ≡ copy_within words.old (place + 1) end place }
{
    if place + 1 < end {
        move_down(words, place, end);
    }
}

impl<'a> Stack<'a> {
    ghost use Rattle.std.specs.Prelude.{◌≡◌, true};
    ghost use Rattle.stack_assembly.specs.Machine.{has_room, with_word};
    ghost use Rattle.store.specs.Stacks.{stack_of, Popped, word_at, removed, SameBuffer};

    /// Whether it has fewer words than its buffer.
    #[inline(always)]
    #[tactic(auto, using(crate::proofs::Stacks::room_above), unfolding(crate::specs::Stacks::stack_of))]
    pub fn has_room(&self) -> bool
        ensures { result ≡ has_room (stack_of self.now) }
    {
        self.depth < self.words.len()
    }

    /// Takes the top word away, and leaves a zero in its place; `None` where there is none.
    #[inline(always)]
    #[tactic(auto, using(crate::proofs::Stacks::pops_live, crate::proofs::Stacks::pops_above), unfolding(crate::specs::Stacks::stack_of, stack_assembly::specs::Host::top_first))]
    pub fn pop(&mut self) -> Option<u32>
        ensures same { SameBuffer self.old self.new }
        ensures value { Popped result (stack_of self.old) (stack_of self.new) }
    {
        if self.depth == 0 {
            return None;
        }
        self.depth -= 1;
        let word = self.words[self.depth];
        self.words[self.depth] = 0;
        Some(word)
    }

    /// Puts a word on top, where there is room.
    #[inline(always)]
    #[tactic(auto, using(crate::proofs::Stacks::room_above, crate::proofs::Stacks::places), unfolding(crate::specs::Stacks::stack_of, stack_assembly::specs::Host::top_first))]
    pub fn place(&mut self, word: u32)
        requires { has_room (stack_of self.old) ≡ true }
        ensures same { SameBuffer self.old self.new }
        ensures value { stack_of self.new ≡ with_word word (stack_of self.old) }
    {
        self.words[self.depth] = word;
        self.depth += 1;
    }

    /// The word at an index from the top, 0 being the top.
    #[inline(always)]
    #[tactic(auto, using(crate::proofs::Stacks::depth_in), unfolding(crate::specs::Stacks::stack_of, stack_assembly::specs::Host::top_first))]
    pub fn get(&self, index: usize) -> Option<u32>
        ensures { result ≡ word_at index (stack_of self.now) }
    {
        if index < self.depth {
            Some(self.words[self.depth - 1 - index])
        } else {
            None
        }
    }

    /// Takes the word at an index from the top away; those above it move down, and leave a zero.
    #[inline(always)]
    #[tactic(auto, using(crate::proofs::Stacks::depth_in, crate::proofs::Stacks::removes), unfolding(crate::specs::Stacks::stack_of, stack_assembly::specs::Host::top_first))]
    pub fn remove(&mut self, index: usize) -> Option<u32>
        ensures same { SameBuffer self.old self.new }
        ensures value { removed index (stack_of self.old) ≡ (result, stack_of self.new) }
    {
        let word = self.get(index)?;
        let depth = self.depth;
        close_gap(self.words, depth - 1 - index, depth);
        self.words[depth - 1] = 0;
        self.depth = depth - 1;
        Some(word)
    }
}

// A table that is filled from its front.
ghost use Rattle.std.specs.Prelude.{◌≡◌, ◌≤◌, ◌+◌, ◌/◌, ltb, length};
ghost use Rattle.stack_assembly.specs.Script.{longest};
ghost use Rattle.compile.specs.Private.{put};

use records::Record;

// The record at its index, where the table has room for it.
#[inline(always)]
#[tactic(auto, unfolding(crate::specs::Private::put), using(crate::proofs::Tables::index_in))]
fn put<R: Record>(table: &mut [u32], index: usize, entry: R)
    ensures { table.new ≡ put R.WORDS table.old index (R.words entry) }
{
    if index < R::capacity(table) {
        entry.write(table, index);
    }
}

// Counts the records, all of one type, and writes those that fit.
#[derive(Drop)]
pub(crate) struct TableWriter<'a> {
    pub(crate) words: &'a mut [u32],
    pub(crate) count: usize,
}

impl<'a> TableWriter<'a> {
    #[inline(always)]
    pub(crate) fn has_room<R: Record>(&self) -> bool
        ensures { result ≡ ltb self.now.count (length self.now.words.now / R.WORDS) }
    {
        self.count < R::capacity(self.words)
    }

    #[inline(always)]
    pub(crate) fn push<R: Record>(&mut self, entry: R)
        requires { self.old.count ≤ longest }
        ensures words { self.new.words.now ≡ put R.WORDS self.old.words.now self.old.count (R.words entry) }
        ensures count { self.new.count ≡ self.old.count + 1 }
        ensures same { self.new.words.ghost_name ≡ self.old.words.ghost_name }
    {
        put(self.words, self.count, entry);
        self.count += 1;
    }
}

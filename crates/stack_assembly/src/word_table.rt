// The table of words.
ghost use Rattle.stack_assembly.specs.Table.{Table};

/// The table of words has 30 rows, no two under one name, and each is found by its name.
#[tactic(auto, unfolding(words::specs::Words::words, words::specs::Words::lookup, names::specs::Names::same_bytes, crate::specs::Table::distinct, crate::specs::Table::absent))]
pub fn table_finds_each_word()
    ensures { Table }
{}

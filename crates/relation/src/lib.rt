// A relation between numbers below 1,024, as bits of words. The numbers that it leads from come in blocks of 64. A block has 1,024 words,
// one for each number that is led to, whose bits say from which numbers of the block. So the first block alone has all that leads from
// numbers below 64.
#![tactic(auto)]

ghost use Rattle.std.specs.Prelude.{◌≡◌, ◌<◌, length};
ghost use Rattle.relation.specs.Relation.{block_words, relation_words, HasBlock, Related, Unrelated, Widened};

// The words of a block.
pub const BLOCK_WORDS: usize = 1024;

// The words of all blocks.
pub const WORDS: usize = 16384;

// Puts one pair more into a relation that has the block for it.
pub fn relate(relation: &mut [u64], to: usize, from: usize)
    requires to_bound { (to < 1024) × (from < 1024) }
    requires has_block { HasBlock relation.old from }
    ensures { Related to from relation.old relation.new }
{
    let at = BLOCK_WORDS * (from / 64) + to;
    let word = base::with(relation[at], from % 64, true);
    relation[at] = word;
}

// Copies a relation of one block into one of all blocks that relates nothing.
pub fn widen(small: &[u64], large: &mut [u64])
    requires small_len { length small.now ≡ block_words }
    requires large_len { length large.old ≡ relation_words }
    requires unrelated { Unrelated large.old }
    ensures { Widened small.now large.new }
{
    large[..BLOCK_WORDS].copy_from_slice(small);
}

//! The blocks that are taken.

ghost use Rattle.std.specs.Prelude.{◌≡◌, ◌++◌, ◌∷◌, ◌<◌, ◌≤◌, [], vec_len, vec_capacity};
ghost use Rattle.lil_frames.specs.Blocks.{lowest_of, of_lower, size_at};

/// A block: its first word, how many words it has, and the level that took it. The two words below it belong to it as well.
#[derive(Clone, Copy)]
pub struct Block {
    pub at: u16,
    pub words: u16,
    pub level: u8,
}

/// The first of the two words below the lowest block.
#[tactic(auto, using(crate::proofs::BlockLaws::lowest_last))]
pub fn lowest_of_blocks(blocks: &[Block]) -> u16
    ensures { result ≡ lowest_of 65535 blocks.now }
{
    match blocks.last() {
        None => 65535,
        Some(block) => block.at.saturating_sub(2),
    }
}

/// One more block below the others.
pub fn put_block(blocks: &mut Vec<Block>, block: Block)
    requires { vec_len blocks.old < vec_capacity blocks.old }
    ensures items { blocks.new.items ≡ blocks.old.items ++ block ∷ [] }
    ensures capacity { vec_capacity blocks.old ≤ vec_capacity blocks.new }
{
    match blocks.push(block) {
        Ok(()) => (),
        Err(_) => unreachable!(),
    }
}

/// The blocks of this level, and of those above it, go.
pub fn drop_level(blocks: &mut Vec<Block>, level: u8)
    ensures items { blocks.new.items ≡ of_lower level blocks.old.items }
    ensures capacity { vec_capacity blocks.old ≡ vec_capacity blocks.new }
{
    blocks.retain(|block| block.level < level);
}

/// How many words the block has that a level took and that begins at an address.
pub fn size_of_block(blocks: &[Block], level: u8, at: u16) -> Option<u16>
    ensures { result ≡ size_at level at blocks.now }
{
    for block in blocks {
        if block.at == at && block.level == level {
            return Some(block.words);
        }
    }
    None
}

// Reading the letters of a share whose bytes have been judged.
ghost use Rattle.std.specs.Prelude.{◌≤◌, length};
ghost use Rattle.records.specs.Records.{size_for};
ghost use Rattle.block_letters.specs.Steps.Blocks.{Copied};

use crate::blocks;
use letters::moving;
use records::sizes;

// Copies the letters out of a share's blocks: those of each full block, and then those of the last one. Before them stands its kind.
pub fn copy_letters(front: usize, share: &[u8], packets: &mut [u8])
    requires { size_for front (length packets.old) ≤ length share.now }
    ensures { Copied front share.now (length packets.old) packets.new }
{
    let full = packets.len() / sizes::BLOCK_LETTERS;
    for r in 0..full {
        blocks::copy_block(
            share,
            front + 1 + r * sizes::BLOCK_SIZE,
            packets,
            r * sizes::BLOCK_LETTERS,
        );
    }
    let done = full * sizes::BLOCK_LETTERS;
    let left = packets.len() - done;
    moving::copy(
        share,
        front + 1 + full * sizes::BLOCK_SIZE,
        packets,
        done,
        left,
    );
}

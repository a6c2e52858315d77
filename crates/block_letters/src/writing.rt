// Writing the records that follow a share's head: the full blocks, the last one and the end, one after another.
ghost use Rattle.std.specs.Prelude.{◌≡◌, ◌+◌, ◌-◌, ◌*◌, ◌/◌, ◌<◌, length, get_or};
ghost use Rattle.letters.specs.Laid.{Laid};
ghost use Rattle.records.specs.Records.{block_size, block_letters, total_limit, blocks, size_for, end_record};
ghost use Rattle.block_letters.specs.Steps.Blocks.{blocks_byte};

use crate::blocks;
use letters::moving;
use records::sizes;

// The full blocks: each is its kind and its letters.
// (The head's size beside the share, here and below: the contract says what each byte of the whole share is.)
pub fn put_full_blocks(front: usize, packets: &[u8], share: &mut [u8])
    requires { (length packets.now < total_limit) × (length share.old ≡ size_for front (length packets.now)) }
    ensures { Laid share.old share.new front (front + length packets.now / block_letters * block_size) (blocks_byte front packets.now) }
{
    let full = packets.len() / sizes::BLOCK_LETTERS;
    for r in 0..full {
        let at = front + r * sizes::BLOCK_SIZE;
        share[at] = sizes::RecordKind::FullBlock as u8;
        blocks::copy_block(packets, r * sizes::BLOCK_LETTERS, share, at + 1);
    }
}

// The last block, if the full ones leave any letters: its kind, these letters, and zeros.
pub fn put_last_block(front: usize, packets: &[u8], share: &mut [u8])
    requires { (length packets.now < total_limit) × (length share.old ≡ size_for front (length packets.now)) }
    ensures { Laid share.old share.new (front + length packets.now / block_letters * block_size) (front + blocks (length packets.now) * block_size) (blocks_byte front packets.now) }
{
    let full = packets.len() / sizes::BLOCK_LETTERS;
    let left = packets.len() - full * sizes::BLOCK_LETTERS;
    if left == 0 {
        return;
    }
    let at = front + full * sizes::BLOCK_SIZE;
    share[at] = sizes::RecordKind::LastBlock as u8;
    moving::copy(packets, full * sizes::BLOCK_LETTERS, share, at + 1, left);
    moving::clear(share, at + 1 + left, at + sizes::BLOCK_SIZE);
}

// The end, at the back.
pub fn put_end(front: usize, letters: usize, share: &mut [u8])
    requires { (letters < total_limit) × (length share.old ≡ size_for front letters) }
    ensures { Laid share.old share.new (front + blocks letters * block_size) (size_for front letters) (λ p. get_or (end_record letters) (p - (front + blocks letters * block_size)) 0) }
{
    let start = front + sizes::blocks_of(letters) * sizes::BLOCK_SIZE;
    for i in 0..sizes::END_SIZE {
        share[start + i] = sizes::end_byte(letters, i);
    }
}

// Which byte can stand in the records that follow a share's head.
#![tactic(auto)]

ghost use Rattle.std.specs.Prelude.{◌≡◌, ◌<◌};
ghost use Rattle.records.specs.Steps.Places.{block_stands, end_stands, record_stands};
ghost use Rattle.records.specs.Records.{block_size, total_limit};

use records::sizes;

// A byte can stand at this offset of block r: its kind, then letters, which may be any, then zeros.
fn block_stands(letters: usize, r: usize, offset: usize, byte: u8) -> bool
    requires { (r < total_limit) × (offset < block_size) }
    ensures { result ≡ block_stands letters r offset byte }
{
    if offset == 0 {
        return byte == sizes::block_kind(letters, r);
    }
    if r * sizes::BLOCK_LETTERS + (offset - 1) < letters {
        return true;
    }
    byte == 0
}

// A byte can stand at this offset of the end: its kind and the bytes of T, and nothing after them.
fn end_stands(letters: usize, offset: usize, byte: u8) -> bool
    ensures { result ≡ end_stands letters offset byte }
{
    if sizes::END_SIZE <= offset {
        return false;
    }
    byte == sizes::end_byte(letters, offset)
}

// A byte can stand at this offset of record r past the head: a block, the end, or nothing.
pub fn record_stands(letters: usize, r: usize, offset: usize, byte: u8) -> bool
    requires { (letters < total_limit) × (offset < block_size) }
    ensures { result ≡ record_stands letters r offset byte }
{
    let blocks = sizes::blocks_of(letters);
    if r < blocks {
        return block_stands(letters, r, offset, byte);
    }
    if r == blocks {
        return end_stands(letters, offset, byte);
    }
    false
}

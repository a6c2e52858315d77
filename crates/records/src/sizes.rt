// The sizes and the kinds of the records that follow a share's head.
ghost use Rattle.std.specs.Prelude.{◌≡◌, ◌≤◌, ◌<◌, get_or};
ghost use Rattle.records.specs.Steps.Places.{block_kind, record_size, record_at, offset_at};
ghost use Rattle.records.specs.Records.{block_size, total_limit, blocks, size_for, end_record};

use crate::numbers;

// The kinds of record that follow a head, each by the byte that it begins with.
#[derive(Clone, Copy, PartialEq, Eq, Debug)]
pub enum RecordKind {
    FullBlock = 2,
    LastBlock = 3,
    End = 4,
}

// The letters of a block.
pub const BLOCK_LETTERS: usize = 64;

// The bytes of a block and of the end: the kind comes first.
pub const BLOCK_SIZE: usize = 1 + BLOCK_LETTERS;

pub const END_SIZE: usize = 1 + 4;

// The bytes of a record; what is past the end counts with it, since nothing stands there.
pub fn record_size(front: usize, nth: usize) -> usize
    ensures { result ≡ record_size front nth }
{
    if nth == 0 {
        return front;
    }
    BLOCK_SIZE
}

// The record that the byte at index p of a share stands in, the head being 0,
pub fn record_at(front: usize, p: usize) -> usize
    ensures { result ≡ record_at front p }
{
    if p < front {
        return 0;
    }
    (p - front) / BLOCK_SIZE + 1
}

// and its offset there.
pub fn offset_at(front: usize, p: usize) -> usize
    ensures { result ≡ offset_at front p }
{
    if p < front {
        return p;
    }
    (p - front) % BLOCK_SIZE
}

// The blocks of a share of so many letters.
pub fn blocks_of(letters: usize) -> usize
    requires { letters < total_limit }
    ensures { result ≡ blocks letters }
{
    (letters + (BLOCK_LETTERS - 1)) / BLOCK_LETTERS
}

// The bytes of a share of so many letters whose head has this size.
pub fn size_for(front: usize, letters: usize) -> usize
    requires { (front ≤ block_size) × (letters < total_limit) }
    ensures { result ≡ size_for front letters }
{
    front + blocks_of(letters) * BLOCK_SIZE + END_SIZE
}

// The kind of block r: a full block, or the last one.
pub fn block_kind(letters: usize, r: usize) -> u8
    requires { r < total_limit }
    ensures { result ≡ block_kind letters r }
{
    if (r + 1) * BLOCK_LETTERS <= letters {
        return RecordKind::FullBlock as u8;
    }
    RecordKind::LastBlock as u8
}

// The byte at an offset of the end: its kind, then the four bytes of T; past them there is none, and it counts as 0.
pub fn end_byte(letters: usize, offset: usize) -> u8
    ensures { result ≡ get_or (end_record letters) offset 0 }
{
    match offset {
        0 => RecordKind::End as u8,
        1..=4 => numbers::byte_of(letters, offset - 1),
        _ => 0,
    }
}

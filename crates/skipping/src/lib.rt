// What a reader of a share can step over: letters, the zeros that fill a block up, and whole full blocks.
#![tactic(auto)]

ghost use Rattle.std.specs.Prelude.{◌≤◌, ◌<◌, length};
ghost use Rattle.records.specs.Records.{total_limit};
ghost use Rattle.skipping.specs.Steps.Skipping.{Lettered, ZerosTo, Skips, FullBlocks};

use records::sizes;

// How many letters follow this byte in its record: those of its block that are left.
pub fn letters_after(letters: usize, nth: usize, offset: usize) -> usize
    requires { letters < total_limit }
    ensures { Lettered letters nth offset result }
{
    if nth == 0 {
        return 0;
    }
    if sizes::blocks_of(letters) < nth {
        return 0;
    }
    let here = letters::lesser(
        letters - (nth - 1) * sizes::BLOCK_LETTERS,
        sizes::BLOCK_LETTERS,
    );
    if here <= offset {
        return 0;
    }
    here - offset
}

// The index of the first byte from `at` on that isn't zero, or `end`.
// (An index beside the share, here and below: what is answered is an index of the whole share, which goes on from there.)
fn past_zeros(share: &[u8], at: usize, end: usize) -> usize
    requires { (at ≤ end) × (end ≤ length share.now) }
    ensures { ZerosTo share.now at end result }
{
    for i in at..end {
        if share[i] != 0 {
            return i;
        }
    }
    end
}

// The byte after the one at `at`, which stands at this offset of its record, that has to be looked at, or `end`. Any letter can stand, so
// letters are stepped over, and so are the zeros that fill a block up.
pub fn next_tested(
    share: &[u8],
    letters: usize,
    nth: usize,
    offset: usize,
    at: usize,
    end: usize,
) -> usize
    requires { (letters < total_limit) × (at < end) × (end ≤ length share.now) }
    ensures { Skips share.now letters nth offset at end result }
{
    let count = letters_after(letters, nth, offset);
    let past = letters::lesser(at + 1 + count, end);
    if count == 0 {
        return past;
    }
    past_zeros(share, past, end)
}

// How far full blocks with their kind reach from `start` on, where block r begins, up to the last byte: every byte of them stands, also of one
// that is cut there.
pub fn past_full_blocks(share: &[u8], start: usize, letters: usize, r: usize) -> usize
    requires { start ≤ length share.now }
    ensures { FullBlocks start share.now letters r result }
{
    let full = letters / sizes::BLOCK_LETTERS;
    if full <= r {
        return start;
    }
    let begun = (share.len() - start + (sizes::BLOCK_SIZE - 1)) / sizes::BLOCK_SIZE;
    let most = letters::lesser(begun, full - r);
    for count in 0..most {
        if share[start + count * sizes::BLOCK_SIZE] != sizes::RecordKind::FullBlock as u8 {
            return start + count * sizes::BLOCK_SIZE;
        }
    }
    letters::lesser(start + most * sizes::BLOCK_SIZE, share.len())
}

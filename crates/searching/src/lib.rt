// The search for the first byte that can't stand where it is.
#![tactic(auto)]

ghost use Rattle.std.specs.Prelude.{◌≡◌, ◌⊎◌, ◌+◌, ◌≤◌, ◌<◌, length};
ghost use Rattle.records.specs.Records.{block_size, total_limit};
ghost use Rattle.records.specs.Steps.Places.{stands_in};
ghost use Rattle.kinds.specs.Kinds.{head_size};
ghost use Rattle.heads.specs.Heads.{head_tests, heads};
ghost use Rattle.searching.specs.Steps.Search.{farthest, StopsFrom, StepsOn};

use heads::{Head, bytes as head_bytes};
use records::sizes;

// A byte can stand at this offset of this record.
fn stands_in(head: Head, letters: usize, nth: usize, offset: usize, byte: u8) -> bool
    requires { (letters < total_limit) × (offset < block_size) }
    ensures { result ≡ stands_in (head_tests head) letters nth offset byte }
{
    if nth == 0 {
        return head_bytes::head_stands(head, offset);
    }
    record_bytes::record_stands(letters, nth - 1, offset, byte)
}

// The byte after the one at `at`, which stands at this offset of a head of so many bytes, that has to be looked at, or `end`. A batch may have
// any bytes, so behind L there is nothing to look at. (L has at least the bytes at 5 and 6: up to there the compiler needn't ask how many.)
fn next_in_head(front: usize, offset: usize, at: usize, end: usize) -> usize
    requires { (at < end) × (offset < block_size) }
    ensures { (at < result) × (result ≤ end) × (front ≤ offset + 5 ⊎ (result ≡ at + 1)) }
{
    if offset < 6 {
        return at + 1;
    }
    if front <= offset + 5 {
        return end;
    }
    at + 1
}

// The same in any record.
fn next_tested(
    bytes: &[u8],
    front: usize,
    letters: usize,
    nth: usize,
    offset: usize,
    at: usize,
    end: usize,
) -> usize
    requires { (letters < total_limit) × (offset < block_size) × (at < end) × (end ≤ length bytes.now) }
    ensures { StepsOn bytes.now front letters nth offset at end result }
{
    if nth == 0 {
        return next_in_head(front, offset, at, end);
    }
    skipping::next_tested(bytes, letters, nth, offset, at, end)
}

// The index of the first of these bytes that can't stand where it is, or the number of bytes. The first of them stands at index `base` of a share
// with this head.
pub fn first_wrong(bytes: &[u8], base: usize, head: Head, letters: usize) -> usize
    requires { (base ≤ farthest) × (letters ≡ heads.total head) }
    ensures { StopsFrom base head bytes.now result }
{
    let front = kinds::head_size(head.kind);
    first_wrong_behind(bytes, base, front, head, letters)
}

// The same where the head's size is known: record by record, byte by byte. Full blocks are stepped over.
fn first_wrong_behind(bytes: &[u8], base: usize, front: usize, head: Head, letters: usize) -> usize
    requires { (base ≤ farthest) × (front ≡ head_size head.kind) × (letters ≡ heads.total head) }
    ensures { StopsFrom base head bytes.now result }
{
    let mut at = 0;
    // Loops left by a label, as document 01 names them; neither counts, since each goes on by what it steps over.
    'records: while at < bytes.len() {
        let start = at;
        let nth = sizes::record_at(front, base + start);
        let offset = sizes::offset_at(front, base + start);
        let left = sizes::record_size(front, nth) - offset;
        let end = letters::lesser(start + left, bytes.len());
        while at < end {
            if !stands_in(head, letters, nth, offset + (at - start), bytes[at]) {
                break 'records;
            }
            at = next_tested(bytes, front, letters, nth, offset + (at - start), at, end);
        }
        at = skipping::past_full_blocks(bytes, at, letters, nth);
    }
    at
}

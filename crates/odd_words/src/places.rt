// Where a letter of a node stands: in which packet, where in it, and at which byte of the node's share.
ghost use Rattle.std.specs.Prelude.{◌≤◌, ◌<◌};

use heads::Head;
use records::sizes;

// A packet and a letter in it, both from 1; and an index in the share, from 0.
#[derive(Clone, Copy)]
pub struct Place {
    pub packet: usize,
    pub letter: usize,
    pub index: usize,
}

// How many letters a packet of this node has, L + t(i,d): at least one, so that it divides.
fn packet_letters(head: Head) -> usize
    ensures { 1 ≤ result }
{
    lengths::repair_letters(head.group, head.node)
        .unwrap_or(1)
        .max(1)
}

// How many letters stand before this one of a node, whose place counts from 1. No node has as many as 2^32: T has four bytes.
fn letters_before(place: usize) -> usize
    ensures { result < 4294967296 }
{
    place.saturating_sub(1) % 4294967296
}

// The index in a share of the letter with so many before it: behind the head come blocks, each a byte for its kind and then its letters.
fn index_behind(front: usize, before: usize) -> usize
    requires small { front ≤ 13 }
    requires few { before < 4294967296 }
{
    let blocks = before / sizes::BLOCK_LETTERS;
    front + blocks * sizes::BLOCK_SIZE + 1 + before % sizes::BLOCK_LETTERS
}

// The same in a share of this kind.
#[tactic(auto, using(kinds::proofs::RowLaws::size_small))]
fn index_of(kind: usize, before: usize) -> usize
    requires { before < 4294967296 }
{
    index_behind(kinds::head_size(kind), before)
}

// Where the letter at this place stands, which counts from 1 through all packets of the node.
pub fn of(head: Head, place: usize) -> Place {
    let before = letters_before(place);
    let wide = packet_letters(head);
    Place {
        packet: before / wide + 1,
        letter: before % wide + 1,
        index: index_of(head.kind, before),
    }
}

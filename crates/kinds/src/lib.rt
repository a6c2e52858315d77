// The kinds of head that a share may have, as rows of one table: the ranges of a kind's numbers, the bytes of its L, and its T. A later kind is a
// row more, here and in specs/Kinds.antt.
#![tactic(auto)]

ghost use Rattle.std.specs.Prelude.{◌≡◌, true, ◌-◌, ◌^◌, ◌≤◌, eqb, get_or};
ghost use Rattle.group.specs.Answers.{check_number, value_of};
ghost use Rattle.records.specs.Steps.Ranges.{range_tests};
ghost use Rattle.kinds.specs.Kinds.{is_kind, kind_for_length, row_for_kind, row_total, head_size};
ghost use Rattle.kinds.specs.Steps.Rows.{limits_at, length_test};

use group::{Group, Refusal};
use preview_numbers::checks as previews;
use records::ranges;

// Kinds are numbers and no enum: any byte can come where a kind stands, and what a head, a row or a test is of one that is no kind is said too (`head_in`, `row_for_kind`).
// A node's packets of the repairing code, of sequences up to LONGEST_OF_KIND_ONE.
pub const REPAIRING: usize = 1;

// A node's packet of previews.
pub const PREVIEWS: usize = 5;

// A node's packets of the repairing code, of longer sequences.
pub const REPAIRING_LONGER: usize = 6;

// The most letters in a sequence of kind 1; where there are more, the kind is 6.
const LONGEST_OF_KIND_ONE: usize = 4096;

// What a kind says of k and d, where n and k are known: the most k, and the range of d.
#[derive(Clone, Copy)]
pub struct Limits {
    pub most_k: usize,
    pub least_d: usize,
    pub most_d: usize,
}

// A head of this kind there is.
pub fn is_kind(kind: usize) -> bool
    ensures { result ≡ is_kind kind }
{
    match kind {
        REPAIRING => true,
        PREVIEWS => true,
        _ => kind == REPAIRING_LONGER,
    }
}

// The kind that a node's packets have by their L: writing chooses by it, and no other kind serves them.
pub fn for_length(l: usize) -> usize
    ensures { result ≡ kind_for_length l }
{
    if l <= LONGEST_OF_KIND_ONE {
        return REPAIRING;
    }
    REPAIRING_LONGER
}

// This is the kind for such an L. (By the kind first: where it is known, one comparison is left.)
fn serves(kind: usize, l: usize) -> bool
    ensures { result ≡ eqb kind (kind_for_length l) }
{
    match kind {
        REPAIRING => l <= LONGEST_OF_KIND_ONE,
        REPAIRING_LONGER => LONGEST_OF_KIND_ONE < l,
        _ => false,
    }
}

// The ranges of k and d. What is no kind has those of kind 1: no byte of it is looked at.
pub fn limits_of(kind: usize, n: usize, k: usize) -> Limits
    ensures { result ≡ limits_at kind n k }
{
    if kind == PREVIEWS {
        return Limits {
            most_k: n,
            least_d: 0,
            most_d: 0,
        };
    }
    let most = n.saturating_sub(1);
    Limits {
        most_k: most,
        least_d: k,
        most_d: most,
    }
}

// The bytes of L in a head of this kind.
pub fn length_bytes(kind: usize) -> usize
    ensures { (result ≡ (row_for_kind kind).length_bytes) × (result ≤ 4) }
{
    if kind == REPAIRING_LONGER {
        return 4;
    }
    2
}

// The byte of L at this place can stand there, where L has so many bytes and is one of least..most; past them there is no test.
fn stands_within(bytes: usize, least: usize, most: usize, l: usize, nth: usize) -> bool
    requires { least ≤ 2 ^ 32 }
    ensures { result ≡ get_or (range_tests bytes least most l) nth true }
{
    if bytes <= nth {
        return true;
    }
    ranges::byte_stands(least, most, l, nth)
}

// The same by the bytes and the range that a kind gives L: kind 5's are those of kind 1. (They are written as numbers, in a branch each, so that the
// compiler knows them.)
pub fn length_stands(kind: usize, l: usize, nth: usize) -> bool
    ensures { result ≡ length_test (row_for_kind kind) l nth }
{
    if kind == REPAIRING_LONGER {
        return stands_within(4, LONGEST_OF_KIND_ONE + 1, group_checks::LONGEST, l, nth);
    }
    stands_within(2, 1, LONGEST_OF_KIND_ONE, l, nth)
}

// The bytes of a head of this kind, the kind included.
pub fn head_size(kind: usize) -> usize
    ensures { result ≡ head_size kind }
{
    5 + length_bytes(kind) + 4
}

// A node with these numbers, by the ranges of its kind: refusals 1, 2 and 3.
pub fn check(kind: usize, g: Group, node: usize) -> Result<(), Refusal>
    ensures { check_number result ≡ (row_for_kind kind).refusal g node }
{
    if serves(kind, g.l) {
        return group_checks::node(g, node);
    }
    match kind {
        PREVIEWS => previews::node(g, node),
        REPAIRING => Err(Refusal::Length),
        REPAIRING_LONGER => Err(Refusal::Length),
        _ => Err(Refusal::Numbers),
    }
}

// T, the letters of a share with these numbers; 0 where they are out of range, or where this is no kind.
pub fn total(kind: usize, g: Group, node: usize) -> usize
    ensures { result ≡ row_total (row_for_kind kind) g node }
{
    if serves(kind, g.l) {
        return lengths::packet_letters(g, node).unwrap_or(0);
    }
    if kind == PREVIEWS {
        return preview_numbers::packet_letters(g, node).unwrap_or(0);
    }
    0
}

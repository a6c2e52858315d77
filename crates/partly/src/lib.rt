// A head of which the first bytes are in, and no more: its numbers are those of these bytes with zeros after them.
#![tactic(auto)]

ghost use Rattle.std.specs.Prelude.{ℕ, ◌≡◌, true, ◌++◌, ◌↔◌, ◌≤◌, ◌<◌, get_or, take};
ghost use Rattle.kinds.specs.Kinds.{head_size};
ghost use Rattle.heads.specs.Heads.{head_record};
ghost use Rattle.heads.specs.Steps.Partly.{HeadFits, Blank, PartlyIn, partly_at, head_after};

use heads::bytes::Fitting;
use heads::{Head, bytes as head_bytes};
use records::numbers;

// The most bytes that a head has: where L has four.
const MOST_BYTES: usize = 13;

// Every number has room in its bytes. (A batch number always has.)
fn fits(head: Head) -> bool
    ensures { (result ≡ true) ↔ HeadFits head }
{
    let g = head.group;
    if 255 < head.kind {
        return false;
    }
    if 255 < g.n {
        return false;
    }
    if 255 < g.k {
        return false;
    }
    if 255 < g.d {
        return false;
    }
    if 255 < head.node {
        return false;
    }
    numbers::has_room(g.l, kinds::length_bytes(head.kind))
}

// The byte at an offset is as it is where so many bytes are in.
fn byte_fits(of: Fitting, at: usize, offset: usize) -> bool
    requires { offset < head_size of.head.kind }
    ensures { result ≡ partly_at of.head at offset }
{
    if offset < at {
        return head_bytes::head_stands(of.head, offset);
    }
    of.byte(offset) == 0
}

// Every byte of a head is as it is where so many bytes are in.
fn all_fit(of: Fitting, at: usize) -> bool
    ensures { (result ≡ true) ↔ ((p : ℕ) → p < head_size of.head.kind → partly_at of.head at p ≡ true) }
{
    let size = kinds::head_size(of.head.kind);
    for offset in 0..size {
        if !byte_fits(of, at, offset) {
            return false;
        }
    }
    true
}

// No number is in.
fn blank(head: Head) -> bool
    ensures { (result ≡ true) ↔ Blank head }
{
    let none = Head {
        group: group::of(0, 0, 0, 0),
        node: 0,
        batch: 0,
        kind: 0,
    };
    head == none
}

// These can be the numbers of a head of which so many bytes are in.
pub fn partly_in(head: Head, at: usize) -> bool
    ensures { (result ≡ true) ↔ PartlyIn head at }
{
    if at == 0 {
        return blank(head);
    }
    if !fits(head) {
        return false;
    }
    all_fit(Fitting { head }, at)
}

// The byte at an offset once these bytes have come after the first `at`; past them it counts as 0.
fn byte_after(of: Fitting, at: usize, bytes: &[u8], offset: usize) -> u8
    requires { at ≤ head_size of.head.kind }
    ensures { result ≡ get_or (take at (head_record of.head) ++ bytes.now) offset 0 }
{
    if offset < at {
        return of.byte(offset);
    }
    let i = offset - at;
    if i < bytes.len() {
        return bytes[i];
    }
    0
}

// The head once these bytes have come after its first `at`, of which there are some.
pub fn head_after(of: Fitting, at: usize, bytes: &[u8]) -> Head
    requires { (1 ≤ at) × (at ≤ head_size of.head.kind) }
    ensures { result ≡ head_after of.head at bytes.now }
{
    let size = kinds::head_size(of.head.kind);
    let mut first = [0u8; MOST_BYTES];
    for next in 0..size {
        first[next] = byte_after(of, at, bytes, next);
    }
    head_bytes::head_in(&first)
}

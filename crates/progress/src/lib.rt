// What is said to people of a share that is coming in: whose it is, and how many of how many bytes are in; or which byte can't stand, and what would
// stand there.
#![tactic(auto)]

ghost use Rattle.std.specs.Prelude.{◌≡◌, ◌≤◌, length};
ghost use Rattle.io.specs.Counts.{IsPrefixLen};

use group::{Group, Refusal};
use heads::Head;

// More bytes than any share has: T has four bytes, and 64 letters take 65.
const BYTES_LIMIT: usize = 8589934592;

// How many hundredths of the whole a part is.
fn percent(part: usize, whole: usize) -> usize {
    if whole == 0 || BYTES_LIMIT < part {
        return 0;
    }
    part * 100 / whole
}

// Puts a node and its group of previews.
fn put_preview_node(node: usize, g: Group, line: &mut [u8; 256]) -> usize
    ensures { result ≤ 92 }
{
    let of = text::put_number(line, 0, b"previews of node ", node);
    let n = text::put_number(line, of, b" of [", g.n);
    text::put_number(line, n, b",", g.k)
}

// Puts a node and its group: `node 1 of [3,2,2]`; of previews, which have no d, `previews of node 1 of [3,2]`.
fn put_node(node: usize, g: Group, line: &mut [u8; 256]) -> usize
    ensures { result ≤ 92 }
{
    if g.d == 0 {
        return put_preview_node(node, g, line);
    }
    let of = text::put_number(line, 0, b"node ", node);
    let n = text::put_number(line, of, b" of [", g.n);
    let k = text::put_number(line, n, b",", g.k);
    text::put_number(line, k, b",", g.d)
}

// Puts whose share it is: `node 1 of [3,2,2], L = 1, batch 7`.
fn put_head(head: Head, line: &mut [u8; 256]) -> usize
    ensures { result ≤ 147 }
{
    let node = put_node(head.node, head.group, line);
    let l = text::put_number(line, node, b"], L = ", head.group.l);
    text::put_number(line, l, b", batch ", head.batch as usize)
}

// Puts how far it is: `: 81 of 81 bytes, 100%`.
fn put_far(part: usize, whole: usize, at: usize, line: &mut [u8; 256]) -> usize
    requires { at ≤ 147 }
    ensures { result ≤ 222 }
{
    let has = text::put_number(line, at, b": ", part);
    let wants = text::put_number(line, has, b" of ", whole);
    let hundredths = text::put_number(line, wants, b" bytes, ", percent(part, whole));
    text::put(line, hundredths, b"%")
}

// Puts the text at the start of `line`, with no end of the line. The answer is how many bytes it has.
pub fn line(head: Head, part: usize, whole: usize, line: &mut [u8; 256]) -> usize
    ensures { IsPrefixLen result line.new }
{
    let far = put_head(head, line);
    put_far(part, whole, far, line)
}

// Puts what would stand where a byte can't.
fn put_part(refusal: Refusal, at: usize, line: &mut [u8; 256]) -> usize
    requires { at ≤ 64 }
    ensures { result ≤ 128 }
{
    match refusal {
        Refusal::Kind => text::put(line, at, b"the kind of a record"),
        Refusal::HeadNumber => text::put(line, at, b"a number of the head"),
        Refusal::Filler => text::put(line, at, b"a zero that fills the last block"),
        Refusal::Total => text::put(line, at, b"the total"),
        _ => text::put(line, at, b"nothing comes after the end"),
    }
}

// Puts which byte can't stand, and what would stand there, in the same way: `the byte at index 4 can't stand there: a number of the head`.
pub fn wrong(refusal: Refusal, place: usize, line: &mut [u8; 256]) -> usize
    ensures { IsPrefixLen result line.new }
{
    let index = text::put_number(line, 0, b"the byte at index ", place);
    let there = text::put(line, index, b" can't stand there: ");
    put_part(refusal, there, line)
}

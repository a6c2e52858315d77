// The file from k nodes. One node's packets are there at a time, so the pieces of the later ranks wait in C until the file in A isn't needed any more. Then
// come those of the first rank, which are the most: at the longest L the room in C is just enough for them.
use crate::steps;
use group::Group;

// The pieces of a node as this rank, from its packets at the start of B, one after another into C from `at` on. The answer is where they end.
fn keep(g: Group, node: usize, rank: usize, b: &[u8], c: &mut [u8], at: usize) -> usize {
    let packets = lines::part(b, 0, steps::held(g, node));
    let mut end = at;
    for column in rank..16 {
        let piece = store::pieces::piece(g, node, rank, column, packets);
        lines::put(c, end, piece);
        end = steps::after(end, piece.len());
    }
    end
}

// The same from C to their places in the collector's buffer in A.
fn bring(g: Group, rank: usize, c: &[u8], at: usize, a: &mut [u8]) -> usize {
    let mut end = at;
    for column in rank..=g.d.min(15) {
        let to = lines::value(store::pieces::entry(g, rank, column));
        lines::put(a, to, lines::part(c, end, g.l));
        end = steps::after(end, g.l);
    }
    end
}

// The pieces of all ranks but the first, the last first.
fn keep_all(g: Group, ids: &[usize], a: &mut [u8], b: &mut [u8], c: &mut [u8]) {
    let mut at = 0;
    for rank in (2..=ids.len()).rev() {
        let node = ids[rank - 1];
        steps::encode(g, node, a, b);
        at = keep(g, node, rank, b, c, at);
    }
}

fn bring_all(g: Group, ids: &[usize], c: &[u8], a: &mut [u8]) {
    let mut at = 0;
    for rank in (2..=ids.len()).rev() {
        at = bring(g, rank, c, at, a);
    }
}

// The pieces of the first rank, through C.
fn bring_first(g: Group, node: usize, b: &[u8], c: &mut [u8], a: &mut [u8]) {
    keep(g, node, 1, b, c, 0);
    bring(g, 1, c, 0, a);
}

// The collector's buffer in A: the later ranks' pieces go there once the last node is encoded.
fn collect(g: Group, ids: &[usize], a: &mut [u8], b: &mut [u8], c: &mut [u8]) {
    keep_all(g, ids, a, b, c);
    if let Some(first) = ids.first() {
        steps::encode(g, *first, a, b);
        bring_all(g, ids, c, a);
        bring_first(g, *first, b, c, a);
    }
}

// Recovers the file, in place in A.
pub fn recover(g: Group, ids: &[usize], a: &mut [u8], b: &mut [u8], c: &mut [u8]) {
    collect(g, ids, a, b, c);
    let buffer = lines::part_mut(a, 0, lines::value(lengths::file_letters(g)));
    let answer = store::recovery::recover(g, ids, buffer);
    steps::told(b"recover", answer, buffer);
}

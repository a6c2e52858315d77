// What every step needs: how its outcome is written, and a node's packets.
use group::{Group, Refusal};

// The step, its answer, and the number that stands for the letters that it left.
pub fn told(words: &[u8], answer: Result<usize, Refusal>, letters: &[u8]) {
    lines::say(words);
    script::answer(answer);
    script::sum(letters);
}

// An index a run further on.
pub fn after(at: usize, count: usize) -> usize {
    at % 4294967296 + count % 4294967296
}

// How many letters a node holds; none where the group is refused.
pub fn held(g: Group, node: usize) -> usize {
    lines::value(lengths::packet_letters(g, node))
}

// The group's file in A, the generator's letters after its L, and a node's packets of it at the start of B.
pub fn encode(g: Group, node: usize, a: &mut [u8], b: &mut [u8]) {
    let file = lines::part_mut(a, 0, lines::value(lengths::file_letters(g)));
    lines::scatter(file, g.l);
    let packets = lines::part_mut(b, 0, held(g, node));
    let answer = store::encoding::encode(g, node, file, packets);
    lines::number(b"encode ", node);
    told(b"", answer, packets);
}

// A node's packets as a share: written, judged whole and cut, also as it arrives, and read.
use crate::steps;
use arriving::Arriving;
use group::Group;
use heads::Head;
use share::Fault;

// Some words and a judgment.
fn judged(words: &[u8], judgment: Result<Head, Fault>) {
    lines::say(words);
    lines::say(b": ");
    judged_words::tell(judgment);
    lines::say(b"\n");
}

// A share as it is, without its last byte, and with one more. (What is proved of a literal grows with what stands beside it: so each has a function.)
fn judge(share: &[u8]) {
    judged(b"judge", share::judge(share));
}

fn judge_cut(share: &[u8]) {
    judged(b"cut", share::judge(share));
}

fn judge_lengthened(share: &[u8]) {
    judged(b"lengthened", share::judge(share));
}

fn cut(a: &[u8], bytes: usize) {
    judge(lines::part(a, 0, bytes));
    if bytes == 0 {
        return;
    }
    judge_cut(lines::part(a, 0, bytes - 1));
    judge_lengthened(lines::part(a, 0, steps::after(bytes, 1)));
}

// Its letters.
fn read_into(share: &[u8], letters: &mut [u8]) {
    judged(b"read", share::read(share, letters));
}

fn sum(letters: &[u8]) {
    lines::say(b"letters");
    script::sum(letters);
}

fn read(a: &[u8], bytes: usize, letters: usize, c: &mut [u8]) {
    let room = lines::part_mut(c, 0, letters);
    read_into(lines::part(a, 0, bytes), room);
    sum(room);
}

// A share that comes in three bursts: the first ends within L, and the last has one byte.
fn judge_nearly(state: Arriving) {
    judged(b"nearly", state.judge());
}

fn judge_arrived(state: Arriving) {
    judged(b"arrived", state.judge());
}

fn arrive(a: &[u8], bytes: usize) {
    if bytes < 8 {
        return;
    }
    let start = Arriving::start().after(lines::part(a, 0, 7));
    let nearly = start.after(lines::part(a, 7, bytes - 8));
    judge_nearly(nearly);
    judge_arrived(nearly.after(lines::part(a, bytes - 1, 1)));
}

// The share of the packets in B, written to A.
fn write(g: Group, node: usize, b: &[u8], a: &mut [u8]) {
    let packets = lines::part(b, 0, steps::held(g, node));
    let share = lines::part_mut(a, 0, lines::value(share::share_bytes(g, node)));
    let answer = share::write(g, node, 7, packets, share);
    steps::told(b"write", answer, share);
}

// A node's share in A, and what is said of it.
pub fn store(g: Group, node: usize, a: &mut [u8], b: &mut [u8], c: &mut [u8]) {
    steps::encode(g, node, a, b);
    write(g, node, b, a);
    let bytes = lines::value(share::share_bytes(g, node));
    cut(a, bytes);
    read(a, bytes, steps::held(g, node), c);
    arrive(a, bytes);
}

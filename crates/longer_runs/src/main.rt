// Long sequences, at and around every limit of L: on few nodes a file is encoded, stored, cut, judged and read, recovered from k nodes, and a lost
// node is repaired by d. Of each step its answer is written, and one number that stands for all letters that it left. tools/longer_model.py works
// out what must be written, from documents 01 and 02 (docs/SCHEME.md) alone.
#![tactic(auto)]

mod collecting;
mod repairing;
mod steps;
mod storing;

use group::Group;

// A group and its length.
fn heading(g: Group) {
    script::numbers(b"group", &[g.n, g.k, g.d, g.l]);
    lines::say(b"\n");
}

// What is done in one group: its file is recovered from the nodes `ids`, and a lost node is repaired by its helpers.
#[derive(Clone, Copy)]
struct Night<'a> {
    ids: &'a [usize],
    lost: usize,
    helpers: &'a [usize],
}

// All of it for one group: a node's share, the file, and the lost node.
fn run(g: Group, night: Night, a: &mut [u8], b: &mut [u8], c: &mut [u8]) {
    heading(g);
    storing::store(g, night.lost, a, b, c);
    collecting::recover(g, night.ids, a, b, c);
    repairing::repair(g, night.lost, night.helpers, a, b, c);
}

// The same with each of these lengths in place of the group's own.
fn run_all(lengths: &[usize], g: Group, night: Night, a: &mut [u8], b: &mut [u8], c: &mut [u8]) {
    for l in lengths {
        run(group::of(g.n, g.k, g.d, *l), night, a, b, c);
    }
}

// [3,2,2] from the nodes 3 and 1: its file has three sequences, and at the longest L each memory has just room for what it has to hold.
fn three_nodes(lengths: &[usize], a: &mut [u8], b: &mut [u8], c: &mut [u8]) {
    let night = Night {
        ids: &[3, 1],
        lost: 2,
        helpers: &[3, 1],
    };
    run_all(lengths, group::of(3, 2, 2, 0), night, a, b, c);
}

// [5,3,4], whose pieces of ranks 2 and 3 wait for the others.
fn five_nodes(lengths: &[usize], a: &mut [u8], b: &mut [u8], c: &mut [u8]) {
    let night = Night {
        ids: &[5, 3, 2],
        lost: 4,
        helpers: &[5, 3, 2, 1],
    };
    run_all(lengths, group::of(5, 3, 4, 0), night, a, b, c);
}

// A holds a file, a share or the collector's buffer, B a node's packets, and C pieces. They stay three parameters: the borrow checker doesn't follow a struct
// of `&mut` slices of which one is lent while another is read. There is room for three of the longest sequences in A, and for two in B and C; in each
// with some letters more.
fn main() {
    let mut a = lines::room::<3145792>();
    let mut b = lines::room::<2097216>();
    let mut c = lines::room::<2097216>();
    three_nodes(
        &[4096, 4097, 65535, 65536, 1048576, 1048577],
        &mut a,
        &mut b,
        &mut c,
    );
    five_nodes(&[4096, 4097, 65535, 65536], &mut a, &mut b, &mut c);
}

// Disk 2 rebuilt from the disks 6, 4, 3 and 1, and the batch recovered from the disks 4, 2 and 1: for the program `tour`.
#![tactic(auto)]

// The helpers of node 2 and the nodes of the batch, by their ranks. Ranks count from 1.
const HELPERS: [usize; 4] = [6, 4, 3, 1];

const NODES: [usize; 3] = [4, 2, 1];

// The piece of a helper for the rebuilding of node 2.
fn help(rank: usize, helper: usize, disks: &[u8], piece: &mut [u8]) {
    let mut packets = [0u8; 124];
    disks::read(helper, disks, &mut packets);
    let held = lines::part(&packets, 0, disks::letters(helper));
    let _ = store::helping::help(disks::six(), 2, helper, rank, held, piece);
}

// Node 2's packets in the buffer, of 76 letters, from the four pieces, each of 19 letters at its rank's place. The answer is the count.
pub fn rebuild(disks: &[u8], buffer: &mut [u8]) -> usize {
    for i in 0..4 {
        help(
            i + 1,
            HELPERS[i],
            disks,
            lines::part_mut(buffer, i * 19, 19),
        );
    }
    let answer = store::repairing::repair(disks::six(), 2, &HELPERS, buffer);
    lines::outcome(answer)
}

// The pieces of a node for the recovery of a batch, one for each column, each put at its entry of the buffer. For a column before its rank a
// node sends nothing: that piece is refused, which makes it empty.
fn send_all(rank: usize, node: usize, disks: &[u8], buffer: &mut [u8]) {
    let mut packets = [0u8; 124];
    disks::read(node, disks, &mut packets);
    let held = lines::part(&packets, 0, disks::letters(node));
    for column in 1..5 {
        let start = lines::value(store::pieces::entry(disks::six(), rank, column));
        let piece = store::pieces::piece(disks::six(), node, rank, column, held);
        lines::put(buffer, start, piece);
    }
}

// The batch in the buffer, of 144 letters, from what the three nodes send. The answer is the count.
pub fn recover(disks: &[u8], buffer: &mut [u8]) -> usize {
    for i in 0..3 {
        send_all(i + 1, NODES[i], disks, buffer);
    }
    let answer = store::recovery::recover(disks::six(), &NODES, buffer);
    lines::outcome(answer)
}

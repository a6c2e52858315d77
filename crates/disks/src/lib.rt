// Six disks in one memory, for the program `tour`: the shares of batch 7 in [6,3,4], L = 16. Node i's share starts at index 146 i; it has at most
// 146 bytes, and a node at most 124 letters.
#![tactic(auto)]

use group::Group;
use heads::Head;
use share::Fault;

pub fn six() -> Group {
    group::of(6, 3, 4, 16)
}

// T of a node.
pub fn letters(node: usize) -> usize {
    lines::value(lengths::packet_letters(six(), node))
}

// The bytes of a node's share.
pub fn bytes(node: usize) -> usize {
    lines::value(share::share_bytes(six(), node))
}

// What the first bytes on a node's disk are judged to be.
pub fn judge(node: usize, bytes: usize, disks: &[u8]) -> Result<Head, Fault> {
    share::judge(lines::part(disks, node % 7 * 146, bytes))
}

// The same for a text: 0 complete, 1 unfinished, 2 malformed.
pub fn choice(judgment: Result<Head, Fault>) -> usize {
    match judgment {
        Ok(_) => 0,
        Err(Fault::Refused(_)) => 1,
        Err(Fault::Malformed(_, _)) => 2,
    }
}

// Tells line n of a text, which is about a judgment: its choice, its number and its place.
pub fn tell_judged(text: &[u8], n: usize, judgment: Result<Head, Fault>) {
    let number = judged_words::number(judgment);
    let place = judged_words::place(judgment);
    marks::tell(text, n, &[choice(judgment), number, place]);
}

// Writes a node's packets to its disk.
pub fn write(node: usize, packets: &[u8], disks: &mut [u8]) {
    let share = lines::part_mut(disks, node % 7 * 146, bytes(node));
    let _ = share::write(six(), node, 7, packets, share);
}

// Encodes a batch for a node, and writes that.
fn spread_to(node: usize, file: &[u8], disks: &mut [u8]) {
    let mut packets = [0u8; 124];
    let held = lines::part_mut(&mut packets, 0, letters(node));
    let _ = store::encoding::encode(six(), node, file, held);
    write(node, held, disks);
}

// The same for all six.
pub fn spread(file: &[u8], disks: &mut [u8]) {
    for node in 1..7 {
        spread_to(node, file, disks);
    }
}

// 0 where these are the packets that a batch gives a node, and else 1.
pub fn differs(node: usize, file: &[u8], packets: &[u8]) -> usize {
    let mut wanted = [0u8; 124];
    let held = lines::part_mut(&mut wanted, 0, letters(node));
    let _ = store::encoding::encode(six(), node, file, held);
    lines::differ(held, packets)
}

// Reads a node's packets into the first letters of `packets`. Of a disk that is lost nothing is read.
pub fn read(node: usize, disks: &[u8], packets: &mut [u8]) {
    let share = lines::part(disks, node % 7 * 146, bytes(node));
    let _ = share::read(share, lines::part_mut(packets, 0, letters(node)));
}

// The disks 2 and 5 are lost: zeros are in their place.
pub fn lose(disks: &mut [u8]) {
    let zeros = [0u8; 146];
    lines::put(disks, 2 * 146, &zeros);
    lines::put(disks, 5 * 146, &zeros);
}

// Tells what is on the six disks once the batch, of 144 letters, has gone there; and disk 5 fills up one byte too early.
pub fn show(text: &[u8], disks: &[u8]) {
    marks::tell(text, 0, &[144]);
    for node in 1..7 {
        let count = bytes(node);
        let choice = choice(judge(node, count, disks));
        marks::tell(text, 1, &[node, letters(node), count, choice]);
    }
    tell_judged(text, 2, judge(5, 145, disks));
}

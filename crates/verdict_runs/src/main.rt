// The judge's line for every kind of bytes (docs/SCHEME.md, 13): the examples P9 to P12, each thing that can be wrong, a preview's share, the largest
// numbers, longer sequences, and the two sides of 65,536 bytes. The file stdout has what it must write, by hand from that page.
#![tactic(auto)]

// Some words, and after them the line for these bytes.
fn show(rt: &impl Print, words: &str, bytes: &[u8]) {
    let _ = print!(rt; "{words}");
    let mut line = [0u8; 192];
    let count = verdict::line(bytes, &mut line);
    let _ = rt.write_all(&line[..count]);
}

// A share with one zero more.
fn longer(rt: &impl Print, share: &[u8]) {
    let mut more = [0u8; 82];
    lines::put(&mut more, 0, share);
    show(rt, "P11: ", &more);
}

// A share of 81 bytes, one less, one more and none.
fn lengths(rt: &impl Print, share: &[u8]) {
    show(rt, "P9: ", share);
    show(rt, "P10: ", lines::part(share, 0, 80));
    longer(rt, share);
    show(rt, "P12: ", lines::part(share, 0, 0));
}

// A share of 81 bytes with another byte at an index.
fn changed(rt: &impl Print, words: &str, share: &[u8], at: usize, byte: u8) {
    let mut other = [0u8; 81];
    lines::put(&mut other, 0, share);
    lines::put(&mut other, at, &[byte]);
    show(rt, words, &other);
}

// The same with each thing that can be wrong within a share.
fn wrong(rt: &impl Print, share: &[u8]) {
    changed(rt, "P9 with a full block: ", share, 11, 2);
    changed(rt, "P9 with node 4: ", share, 4, 4);
    changed(rt, "P9 with a last byte of its fill: ", share, 75, 1);
    changed(rt, "P9 with 258 letters in its end: ", share, 78, 1);
}

// P9 to P12: [3,2,2], L = 1, node 1, batch 7.
fn examples(rt: &impl Print) {
    let g = group::of(3, 2, 2, 1);
    let mut share = [0u8; 81];
    let _ = share::write(g, 1, 7, &[0x11, 0x50], &mut share);
    lengths(rt, &share);
    wrong(rt, &share);
}

// A preview's share, its beginning, and what its head can't have: k above n, a d, the kind of the other code, and a kind that there isn't.
fn judged_preview(rt: &impl Print, share: &[u8]) {
    show(rt, "a preview: ", share);
    show(rt, "its first 80 bytes: ", lines::part(share, 0, 80));
    changed(rt, "a preview with k 4: ", share, 2, 4);
    changed(rt, "a preview with d 2: ", share, 3, 2);
    changed(rt, "a preview as kind 1: ", share, 0, 1);
    changed(rt, "a preview as kind 6: ", share, 0, 6);
    changed(rt, "a preview as kind 7: ", share, 0, 7);
}

// [3,2], L = 1, the file 01 10, node 1, batch 7.
fn preview(rt: &impl Print) {
    let g = group::of(3, 2, 0, 1);
    let mut share = [0u8; 81];
    let _ = share::write_preview(g, 1, 7, &[0x01, 0x10], &mut share);
    judged_preview(rt, &share);
}

// A share with another byte at an index, whose own is put back.
fn with(rt: &impl Print, words: &str, share: &mut [u8], at: usize, byte: u8, own: u8) {
    lines::put(share, at, &[byte]);
    show(rt, words, share);
    lines::put(share, at, &[own]);
}

// A share of L = 4,097, which is 01 10 00 00, with what its L can't be: found at the third byte, and the fourth at once; and as another kind.
fn wrong_lengths(rt: &impl Print, share: &mut [u8]) {
    with(rt, "with L 4,096: ", share, 5, 0, 1);
    with(rt, "with 17 in L's third byte: ", share, 7, 17, 0);
    with(rt, "with 16 in L's third byte: ", share, 7, 16, 0);
    with(rt, "with 1 in L's fourth byte: ", share, 8, 1, 0);
    with(rt, "as kind 1: ", share, 0, 1, 6);
    with(rt, "as kind 5: ", share, 0, 5, 6);
}

// The smallest share of kind 6: node 1 of [3,2,2].
fn smallest_of_six(rt: &impl Print, packets: &[u8], room: &mut [u8]) {
    let share = lines::part_mut(room, 0, 8403);
    let letters = lines::part(packets, 0, 8194);
    let _ = share::write(group::of(3, 2, 2, 4097), 1, 7, letters, share);
    show(rt, "L 4,097: ", share);
    show(rt, "its first 8,402 bytes: ", lines::part(share, 0, 8402));
    wrong_lengths(rt, share);
}

// One of L = 65,536.
fn long_sequences(rt: &impl Print, packets: &[u8], room: &mut [u8]) {
    let share = lines::part_mut(room, 0, 133138);
    let letters = lines::part(packets, 0, 131072);
    let _ = share::write(group::of(3, 2, 2, 65536), 1, 7, letters, share);
    show(
        rt,
        "L 65,536, its first 65,536 bytes: ",
        lines::part(share, 0, 65536),
    );
    show(rt, "all of it, 133,138 bytes: ", share);
}

// Writes a node's share of [16,15,15], L = 4,096, from so many letters to so many bytes.
fn write(node: usize, batch: u32, packets: &[u8], letters: usize, room: &mut [u8], bytes: usize) {
    let g = group::of(16, 15, 15, 4096);
    let share = lines::part_mut(room, 0, bytes);
    let _ = share::write(g, node, batch, lines::part(packets, 0, letters), share);
}

// Node 1's share, with the last batch number.
fn complete(rt: &impl Print, share: &[u8]) {
    show(rt, "the largest numbers: ", share);
}

// Node 16's share, and its beginnings.
fn too_long(rt: &impl Print, share: &[u8]) {
    show(
        rt,
        "65,536 bytes of a share: ",
        lines::part(share, 0, 65536),
    );
    show(rt, "65,537 bytes of it: ", lines::part(share, 0, 65537));
    show(rt, "all of it, 65,666 bytes: ", share);
}

fn malformed(rt: &impl Print, zeros: &[u8]) {
    show(rt, "a zero: ", lines::part(zeros, 0, 1));
    show(rt, "65,536 zeros: ", lines::part(zeros, 0, 65536));
    show(rt, "65,537 zeros: ", lines::part(zeros, 0, 65537));
}

// The large shares, one after the other.
fn large(rt: &impl Print, packets: &[u8], room: &mut [u8]) {
    write(1, 4294967295, packets, 61440, room, 62416);
    complete(rt, lines::part(room, 0, 62416));
    write(16, 0, packets, 64590, room, 65666);
    too_long(rt, lines::part(room, 0, 65666));
}

fn main(rt: HostRuntime) {
    let mut packets = lines::room::<600000>();
    let mut share = lines::room::<600000>();
    let zeros = lines::room::<600000>();
    examples(&rt);
    preview(&rt);
    lines::scatter(&mut packets, 1);
    large(&rt, &packets, &mut share);
    smallest_of_six(&rt, &packets, &mut share);
    long_sequences(&rt, &packets, &mut share);
    malformed(&rt, &zeros);
}

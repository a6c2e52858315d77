// A whole night in one screen: a batch is spread over six disks, one fills up, two are lost, one of them is rebuilt from four others, and
// the batch comes back from three. The text below is what it says, with places for the numbers. The file stdout has it as it is written.
#![tactic(auto)]

// Disk 2, which is lost, is rebuilt and compared.
fn rebuild(text: &[u8], file: &[u8], disks: &mut [u8]) {
    disks::tell_judged(text, 3, disks::judge(2, 146, disks));
    let mut packets = [0u8; 76];
    let count = rescue::rebuild(disks, &mut packets);
    marks::tell(text, 4, &[76, file.len(), count]);
    disks::write(2, &packets, disks);
    let choice = disks::choice(disks::judge(2, 146, disks));
    marks::tell(text, 5, &[disks::differs(2, file, &packets), choice]);
}

// The batch is recovered and compared.
fn recover(text: &[u8], file: &[u8], disks: &[u8]) {
    let mut batch = [0u8; 144];
    marks::tell(text, 6, &[144, rescue::recover(disks, &mut batch)]);
    marks::tell(text, 7, &[lines::differ(&batch, file)]);
}

fn night(text: &[u8]) {
    let mut file = [0u8; 144];
    let mut disks = [0u8; 1022];
    lines::scatter(&mut file, 7);
    disks::spread(&file, &mut disks);
    disks::show(text, &disks);
    disks::lose(&mut disks);
    rebuild(text, &file, &mut disks);
    recover(text, &file, &disks);
}

fn main() {
    night(
        b"A batch of # letters goes to 6 disks; any 3 give it back, any 4 rebuild a lost one.
  disk #: # letters in a share of # bytes, judged {complete|unfinished|malformed}
Disk 5 fills up: its share has 145 of 146 bytes, judged {complete|unfinished|malformed # at #}, so it is never read as whole.
Disks 2 and 5 are lost: zeros in their place are judged {complete|unfinished|malformed # at #}.
Disk 2 is rebuilt from disks 6, 4, 3 and 1: they send # letters, where the whole batch has #; letters added that are not zero: #.
  Its packets are {letter for letter|NOT} what they were; its share is judged {complete|unfinished|malformed}.
The batch is recovered from disks 4, 2 and 1: they send # letters, no more than it has; letters added that are not zero: #.
  It is {the batch, letter for letter|NOT the batch}.
",
    );
}

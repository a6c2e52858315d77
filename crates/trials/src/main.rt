// Runs every call as the script on standard input says, and writes each line again with what comes back. The models in tools/ make the script
// and what must be written, part by part, from documents 01 and 02 (docs/SCHEME.md) alone. docs/SCRIPTS.md says what a line is.
#![tactic(auto)]

use arriving::Arriving;

// Page by page: reads on behind the bytes of a cut line that are kept at the front of the room, and runs the whole lines. A page that doesn't fill the
// room is the last. A proved loop has to end, and nothing says that an input does: so the loop counts its pages, up to a number that no run uses up.
fn run(room: &mut [u8], a: &mut [u8], b: &mut [u8]) {
    let mut state = Arriving::start();
    let mut kept = 0;
    for _ in 0..u64::MAX {
        let count = pages::more(room, kept);
        let end = pages::whole(room, count);
        state = all_calls::run(lines::part(room, 0, end), state, a, b);
        kept = pages::carry(room, end, count);
        if count < room.len() {
            break;
        }
    }
}

// The memories of a script of long sequences have more than the 3,145,728 letters of the longest file of three sequences. Two of them fit on the stack,
// which has 8 MiB.
fn main() {
    let mut room = io::large_buffer();
    let mut a = lines::room::<3200000>();
    let mut b = lines::room::<3200000>();
    run(&mut room, &mut a, &mut b);
}

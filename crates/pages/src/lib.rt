// A text of any length, read page by page into one room. A line that the end of a page cuts is carried over to the front of the room, where
// the next page goes on with it.
#![tactic(auto)]

ghost use Rattle.std.specs.Prelude.{◌≤◌, length};

// Standard input's descriptor.
const STDIN: i32 = 0;

// Reads on behind the first `kept` bytes, until the room is full or the input ends. The answer is how many bytes are there then.
// (A count beside the room, here and below: behind the bytes of the page there is room, which the next call reads into.)
pub fn more(room: &mut [u8], kept: usize) -> usize
    requires { kept ≤ length room.old }
    ensures { result ≤ length room.old }
{
    kept + io::read_full(STDIN, &mut room[kept..])
}

// Where the whole lines of a page of `count` bytes end: behind its last newline. A page without one is a line, and one that doesn't fill the room
// is the last, whose lines are all whole.
pub fn whole(room: &[u8], count: usize) -> usize
    requires { count ≤ length room.now }
    ensures { result ≤ count }
{
    if count < room.len() {
        return count;
    }
    match room[..count].iter().rposition(|byte| *byte == b'\n') {
        Some(last) => last + 1,
        None => count,
    }
}

// Carries the bytes of a page of `count` bytes from index `from` on to the front. The answer is how many these are.
pub fn carry(room: &mut [u8], from: usize, count: usize) -> usize
    requires { (from ≤ count) × (count ≤ length room.old) }
    ensures { result ≤ count }
{
    room.copy_within(from..count, 0);
    count - from
}

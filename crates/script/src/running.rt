// A script, line by line.
use crate::memory::{self, Parts};
use crate::telling;
use script_line::Line;

// Runs a script over the memories A and B. A line whose operation is 10 or more is a call: `call` is handed the line, all its numbers, and the slices that
// it names. Behind it stands the number of B's slice.
pub fn run<F: FnMut(Line, &[usize; 32], &mut [u8], &mut [u8])>(
    parts: Parts,
    text: &[u8],
    a: &mut [u8],
    b: &mut [u8],
    mut call: F,
)
    requires { F.IsAlwaysCallable call }
{
    let mut found = [0; 32];
    let mut at = 0;
    // No count: the next line begins where this one ended.
    while at < text.len() {
        let line = memory::next(parts, text, at, &mut found, a, b);
        if 10 <= line.operation {
            let from = lines::part_mut(a, line.a, line.a_length);
            let into = lines::part_mut(b, line.b, line.b_length);
            call(line, &found, from, into);
            telling::sum(into);
        }
        at = line.next;
    }
}

// The same with the script of one part on standard input, of at most 600,000 bytes, over memories of as many letters: more than the 491,520 of the longest
// file.
pub fn of_one_part<F: FnMut(Line, &[usize; 32], &mut [u8], &mut [u8])>(call: F)
    requires { F.IsAlwaysCallable call }
{
    let mut room = lines::room::<600000>();
    let mut a = lines::room::<600000>();
    let mut b = lines::room::<600000>();
    let count = pages::more(&mut room, 0);
    run(Parts::One, &room[..count], &mut a, &mut b, call);
}

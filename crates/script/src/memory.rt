// The operations of the memories. Each has a slice of A and one of B, of which either may be empty.
ghost use Rattle.std.specs.Prelude.{◌+◌, ◌≤◌, ◌<◌, length};

use crate::telling;
use script_line::Line;

// A script has one part; or many, each of which begins with clear memories: there 6 is an operation of the memories, too.
#[derive(Clone, Copy, PartialEq, Eq)]
pub enum Parts {
    One,
    Many,
}

// 1 fills both slices with the generator's letters after a seed. 2 puts the line's other numbers at the start of both. 3 keeps in A's
// slice what is in B's, and 4 takes into B's what is in A's, as far as both reach. 5 shows the letters of B's. 6 makes both all zero.
// The numbers are the scripts' own, as docs/SCRIPTS.md has them: so they are matched as they come.
fn change(parts: Parts, line: Line, values: &[usize], a: &mut [u8], b: &mut [u8]) {
    let operation = line.operation;
    match operation {
        1 => {
            lines::scatter(a, line.own);
            lines::scatter(b, line.own);
        }
        2 => {
            lines::put_numbers(a, values);
            lines::put_numbers(b, values);
        }
        3 => lines::put(a, 0, b),
        4 => lines::put(b, 0, a),
        6 if parts == Parts::Many => {
            a.fill(0);
            b.fill(0);
        }
        _ => telling::shown(b),
    }
}

// An operation of the memories, on the slices that the line names.
fn work(parts: Parts, line: Line, found: &[usize; 32], a: &mut [u8], b: &mut [u8]) {
    let values = script_line::rest(found, 5, line.count);
    let from = lines::part_mut(a, line.a, line.a_length);
    let into = lines::part_mut(b, line.b, line.b_length);
    change(parts, line, values, from, into);
    telling::sum(into);
}

// Goes on with the line that starts at index `at` of the text: writes it again and reads its numbers, by their names into the answer and
// all of them into `found`. A heading ends here, and so does an operation of the memories, which is done; a line whose operation is 10 or
// more is left to the program.
pub fn next(
    parts: Parts,
    text: &[u8],
    at: usize,
    found: &mut [usize; 32],
    a: &mut [u8],
    b: &mut [u8],
) -> Line
    requires { at ≤ length text.now }
    ensures { (at < result.next) × (result.next ≤ length text.now + 1) }
{
    let line = script_line::read(text, at, found);
    lines::say(lines::part(text, at, line.length));
    if line.count == 0 {
        telling::nothing();
    } else if line.operation < 10 {
        work(parts, line, found, a, b);
    }
    line
}

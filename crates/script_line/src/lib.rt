// A line of a script: its numbers, and what they are called. They are, in this order: the operation, a slice of the memory A by its start
// and its length, a slice of the memory B in the same way, and what the operation wants besides. Words between them are for the reader.
#![tactic(auto)]

ghost use Rattle.std.specs.Prelude.{◌≡◌, ◌+◌, ◌≤◌, ◌<◌, IfSome, length};

use group::Group;

// How far a line is read: the index of the number that comes next, and what its digits are worth so far, once one was seen.
#[derive(Clone, Copy)]
pub struct Place {
    pub next: usize,
    pub reading: Option<usize>,
}

// What a line says. `own` is the first number after the two slices; a call that is handed a group has it there, and its other numbers
// behind it. Numbers that a line doesn't have are 0.
#[derive(Clone, Copy)]
pub struct Line {
    pub length: usize,
    pub next: usize,
    pub count: usize,
    pub operation: usize,
    pub a: usize,
    pub a_length: usize,
    pub b: usize,
    pub b_length: usize,
    pub own: usize,
    pub group: Group,
    pub first: usize,
    pub second: usize,
    pub third: usize,
}

// A digit's value.
fn digit(byte: u8) -> Option<usize>
    ensures { IfSome result (λ d. d < 10) }
{
    match byte {
        b'0'..=b'9' => Some((byte - b'0') as usize),
        _ => None,
    }
}

// A number with one digit more. Of a number that no call could want, the first digits are passed over.
fn longer(number: usize, digit: usize) -> usize
    requires { digit < 10 }
{
    number % 1000000000000 * 10 + digit
}

// One byte more: a digit goes to its number, any other byte ends a number. Of more than 32 numbers the others are passed over.
fn step(place: Place, byte: u8, found: &mut [usize; 32]) -> Place {
    let next = place.next;
    if let Some(digit) = digit(byte) {
        let number = place.reading.unwrap_or(0);
        return Place {
            next,
            reading: Some(longer(number, digit)),
        };
    }
    match place.reading {
        Some(number) if next < 32 => {
            found[next] = number;
            Place {
                next: next + 1,
                reading: None,
            }
        }
        _ => place,
    }
}

// The numbers by their names.
fn named(length: usize, next: usize, count: usize, found: &[usize; 32]) -> Line
    ensures { result.next ≡ next }
{
    let own = found[5];
    Line {
        length,
        next,
        count,
        operation: found[0],
        a: found[1],
        a_length: found[2],
        b: found[3],
        b_length: found[4],
        own,
        group: group::of(own, found[6], found[7], found[8]),
        first: found[9],
        second: found[10],
        third: found[11],
    }
}

// Reads the line that starts at index `from`, and leaves all its numbers in `found` too.
pub fn read(text: &[u8], from: usize, found: &mut [usize; 32]) -> Line
    requires { from ≤ length text.now }
    ensures { (from < result.next) × (result.next ≤ length text.now + 1) }
{
    *found = [0; 32];
    let rest = &text[from..];
    let length = rest
        .iter()
        .position(|byte| *byte == b'\n')
        .unwrap_or(rest.len());
    let mut place = Place {
        next: 0,
        reading: None,
    };
    for byte in &rest[..length] {
        place = step(place, *byte, found);
    }
    place = step(place, b'\n', found);
    named(length, from + length + 1, place.next, found)
}

// The numbers from index `from` on, of the first so many.
pub fn rest<'a>(found: &'a [usize; 32], from: usize, count: usize) -> &'a [usize] {
    found[..count.min(32)].get(from..).unwrap_or(&[])
}

// A small generator: a multiplication and an addition modulo 2^31.

// The number after x.
fn next(x: usize) -> usize {
    (x % 2147483648 * 1103515245 + 12345) % 2147483648
}

// A number's letter: its middle eight bits.
fn letter(x: usize) -> u8 {
    (x / 65536 % 256) as u8
}

// Fills `part` with the letters of the numbers after `seed`.
pub fn scatter(part: &mut [u8], seed: usize) {
    let mut x = seed;
    for place in part.iter_mut() {
        x = next(x);
        *place = letter(x);
    }
}

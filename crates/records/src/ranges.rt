// Which bytes a number may have that is one of a range, least byte first: after its lowest byte, what is left of it is in a range again.
ghost use Rattle.std.specs.Prelude.{◌≡◌, true, ℕ, ◌^◌, ◌≤◌, ◌<◌, get_or};
ghost use Rattle.records.specs.Steps.Ranges.{least_left, most_left, low_stands, range_tests};

// The least that is left of a number which is at least `least`, after this lowest byte.
fn least_left(least: usize, byte: usize) -> usize
    requires { (least ≤ 2 ^ 32) × (byte < 256) }
    ensures { (result ≡ least_left least byte) × (result ≤ 2 ^ 32) }
{
    (least + 255 - byte) / 256
}

// The most that is left of one which is at most `most`.
fn most_left(most: usize, byte: usize) -> usize
    ensures { result ≡ most_left most byte }
{
    most.saturating_sub(byte) / 256
}

// Some number of the range has this lowest byte.
fn low_stands(least: usize, most: usize, byte: usize) -> bool
    requires { (least ≤ 2 ^ 32) × (byte < 256) }
    ensures { result ≡ low_stands least most byte }
{
    // Of 256 numbers in a row each lowest byte is one's.
    if least + 255 <= most {
        return true;
    }
    if most < byte {
        return false;
    }
    least_left(least, byte) <= most_left(most, byte)
}

// The byte of x at this place, from the least one on, can stand there after those before it, where x is to be one of least..most.
pub fn byte_stands(least: usize, most: usize, x: usize, nth: usize) -> bool
    requires { least ≤ 2 ^ 32 }
    ensures { (size : ℕ) → nth < size → result ≡ get_or (range_tests size least most x) nth true }
{
    let mut lo = least;
    let mut hi = most;
    let mut rest = x;
    for _ in 0..nth {
        let byte = rest % 256;
        lo = least_left(lo, byte);
        hi = most_left(hi, byte);
        rest /= 256;
    }
    low_stands(lo, hi, rest % 256)
}

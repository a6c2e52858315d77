// Numbers as bytes, the least one first.
ghost use Rattle.std.specs.Prelude.{◌≡◌, true, ◌↔◌, ℕ, ◌%◌, ◌^◌, ◌≤◌, ◌<◌, get_or};
ghost use Rattle.records.specs.Records.{block_size, number, number_in};

// The last eight bits of a number.
pub fn low(x: usize) -> u8
    ensures { result ≡ x % 256 }
{
    (x % 256) as u8
}

// The byte at an index; a byte that isn't there counts as 0.
pub fn byte_at(share: &[u8], i: usize) -> usize
    ensures { (result ≡ get_or share.now i 0) × (result < 256) }
{
    usize::from(share.get(i).copied().unwrap_or(0))
}

// The number of so many bytes from an index on, the least one first; a byte that isn't there counts as 0.
pub fn number_in(share: &[u8], start: usize, size: usize) -> usize
    requires { (start ≤ block_size) × (size ≤ 4) }
    ensures { (result ≡ number_in size start share.now) × (result < 256 ^ size) }
{
    let mut x = 0;
    for i in (0..size).rev() {
        x = byte_at(share, start + i) + 256 * x;
    }
    x
}

// A byte of a number, from the least one on, of as many as it has room in: one of the first four.
pub fn byte_of(x: usize, nth: usize) -> u8
    requires { nth < 4 }
    ensures { (size : ℕ) → nth < size → result ≡ get_or (number size x) nth 0 }
{
    x.to_le_bytes()[nth]
}

// A number has room in so many bytes.
pub fn has_room(x: usize, size: usize) -> bool
    ensures { (result ≡ true) ↔ (x < 256 ^ size) }
{
    let mut rest = x;
    for _ in 0..size {
        rest /= 256;
    }
    rest == 0
}

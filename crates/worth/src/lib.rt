// What letters are worth in a count: one each, but for those that are zero, since adding a zero changes nothing. And run addition that reports it.
#![tactic(auto)]

mod zeros;

ghost use Rattle.std.specs.Prelude.{◌≡◌, ◌+◌, ◌≤◌, length, take, drop};
ghost use Rattle.letters.specs.Algebra.{xors};
ghost use Rattle.letters.specs.Runs.{added};
ghost use Rattle.worth.specs.Worth.{worth_in};

// How many of the letters aren't zero.
pub fn count(letters: &[u8]) -> usize
    ensures { result ≡ worth_in letters.now 0 (length letters.now) }
{
    let rests = zeros::in_rests(letters);
    letters.len() - zeros::in_blocks(letters, rests)
}

// Adds the letters of `run` into `into`, from index `at` on. Every other letter of `into` stays as it was.
// The answer is how many of the letters that were added aren't zero. The run must fit: at + run.len() <= into.len().
pub fn add_run(into: &mut [u8], at: usize, run: &[u8]) -> usize
    requires { at + length run.now ≤ length into.old }
    ensures letters { into.new ≡ added xors into.old at run.now }
    ensures count { result ≡ worth_in run.now 0 (length run.now) }
{
    adding::add_run(into, at, run);
    count(run)
}

// Adds `count` letters of `buffer` that start at index `from` into the earlier letters that start at index `to`.
// Every other letter stays as it was. The answer is how many of the letters that were added aren't zero.
// The two runs must not overlap, and must fit: to + count <= from and from + count <= buffer.len().
// (Indices and a count, no slices: both are runs of one buffer, and the contract says what the whole of it then holds.)
pub fn add_within(buffer: &mut [u8], to: usize, from: usize, count: usize) -> usize
    requires { (to + count ≤ from) × (from + count ≤ length buffer.old) }
    ensures letters { buffer.new ≡ added xors buffer.old to (take count (drop from buffer.old)) }
    ensures count { result ≡ worth_in buffer.old from count }
{
    let worth = self::count(&buffer[from..from + count]);
    adding_within::add_within(buffer, to, from, count);
    worth
}

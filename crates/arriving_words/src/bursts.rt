// Bytes handed over in bursts of any lengths, some to `after` and some, through `lending`, to `take`, which must do the same.
ghost use Rattle.std.specs.Prelude.{◌≤◌, length};

use arriving::Arriving;

// All bytes from the start, in bursts of a size, with an empty one after each: where it is told, a digit for the judgment after each. Bursts of no bytes are
// bursts of one. The answer is the state at the end.
pub fn of_size(bytes: &[u8], size: usize, told: bool) -> Arriving {
    let mut state = Arriving::start();
    for burst in bytes.chunks(size.max(1)) {
        state = lending::taken(state, burst);
        if told {
            judged_words::digit(state.judge());
        }
        state = state.after(&[]);
    }
    state
}

// The same with another byte at an index. Its own is put back.
pub fn with_byte(bytes: &mut [u8], at: usize, byte: u8, size: usize) -> Arriving {
    if bytes.len() <= at {
        return Arriving::start();
    }
    let own = bytes[at];
    bytes[at] = byte;
    let state = of_size(bytes, size, false);
    bytes[at] = own;
    state
}

// From the start and cut into two bursts at a place: a digit for what the first is judged to be, and a mark where the state after both
// isn't `whole`.
fn cut_at(bytes: &[u8], cut: usize, whole: Arriving)
    requires { cut ≤ length bytes.now }
{
    let (front, behind) = bytes.split_at(cut);
    let first = Arriving::start().after(front);
    judged_words::digit(first.judge());
    if lending::taken(first, behind) != whole {
        lines::say(b"!");
    }
}

// The same at every place, from none in the first burst to all but one. The answer is the state after a single burst.
pub fn cuts(bytes: &[u8]) -> Arriving {
    let whole = Arriving::start().after(bytes);
    for cut in 0..bytes.len() {
        cut_at(bytes, cut, whole);
    }
    whole
}

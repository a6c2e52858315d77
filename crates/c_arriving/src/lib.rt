// A share that arrives, for C: the state of no bytes, bytes taken into a state, and what is told from it: the judgment of all bytes so far, how many can stand, and the
// share that is coming. (In one crate, since the compiler lays out bytes that come one by one better where what they call has several callers.)
#![tactic(auto)]

ghost use Rattle.arriving.specs.Calls.{coming_of};
ghost use Rattle.c_arriving.specs.Arrivals.{StartsWords, TakesWords};
ghost use Rattle.c_arriving.specs.SoFar.{JudgesWords, CountsWords, TellsComing, AnnouncesWords};

use arriving::{Arriving, Coming, bursts};
use c_state::WORDS;
use judging::Fault;

// The state of no bytes. Refusal: 5.
#[unsafe(no_mangle)]
pub extern "C" fn dulvaspen_arriving_start(state: &mut [usize]) -> usize
    ensures { StartsWords state.old result state.new }
{
    if state.len() != WORDS {
        return 5;
    }
    c_state::put_state(Arriving::start(), state);
    0
}

// Takes bytes, zero or many, into the state. It doesn't judge. Refusal: 5.
#[unsafe(no_mangle)]
pub extern "C" fn dulvaspen_arriving_take(state: &mut [usize], bytes: &[u8]) -> usize
    ensures { TakesWords state.old bytes.now result state.new }
{
    if state.len() != WORDS {
        return 5;
    }
    let before = c_state::state_in(state);
    let start = before.stepped_over(bytes);
    // Where the whole burst is stepped over, one number changes.
    if start == bytes.len() {
        state[0] = before.at + start;
        return 0;
    }
    c_state::put_state(bursts::after_steps(before, bytes, start), state);
    0
}

// What all bytes so far are. Refusals: 5, then 7 to 12, and then 6 for a head that has not seven numbers.
#[unsafe(no_mangle)]
pub extern "C" fn dulvaspen_arriving_judge(state: &[usize], head: &mut [usize]) -> usize
    ensures { JudgesWords state.now head.old result head.new }
{
    if state.len() != WORDS {
        return 5;
    }
    let so_far = c_state::state_in(state);
    c_judgment::put_judgment(so_far.judge(), head)
}

// How many bytes can stand, of all so far: all of them, or the index of the first that can't. In a state to which no bytes lead it is 0.
// Refusal: 5.
#[unsafe(no_mangle)]
pub extern "C" fn dulvaspen_arriving_good_bytes(state: &[usize], bytes: &mut usize) -> usize
    ensures { CountsWords state.now bytes.old result bytes.new }
{
    if state.len() != WORDS {
        return 5;
    }
    let so_far = c_state::state_in(state);
    *bytes = so_far.good_bytes();
    0
}

// Tells the share that is coming: its number, and its head and its bytes where there is room for seven numbers, else 6.
fn put_coming(coming: Result<Coming, Fault>, head: &mut [usize], bytes: &mut usize) -> usize
    ensures { TellsComing head.old bytes.old (coming_of coming) result head.new bytes.new }
{
    match coming {
        Ok(share) => {
            if head.len() != 7 {
                return 6;
            }
            c_judgment::put_head(share.head, head);
            *bytes = share.bytes;
            0
        }
        Err(fault) => fault.number(),
    }
}

// Whose share is coming and how many bytes it will have, as soon as its head is in. Refusals: 5, then 7 while the head isn't in and 8 to 12
// as the judge, and then 6 for a head that has not seven numbers.
#[unsafe(no_mangle)]
pub extern "C" fn dulvaspen_arriving_head(
    state: &[usize],
    head: &mut [usize],
    bytes: &mut usize,
) -> usize
    ensures { AnnouncesWords state.now head.old bytes.old result head.new bytes.new }
{
    if state.len() != WORDS {
        return 5;
    }
    let so_far = c_state::state_in(state);
    put_coming(so_far.coming(), head, bytes)
}

// What comes behind the bytes of a burst that are stepped over. An inner function, for `Arriving::after` and for the call for C, which stores one number
// where a whole burst is stepped over, and all of them where it isn't.
ghost use Rattle.arriving.specs.Steps.Reaching.{StepsOver};
ghost use Rattle.arriving.specs.Calls.{Takes};

use crate::Arriving;
use heads::bytes as head_bytes;

// The state after these bytes, of which the first `start` are stepped over.
pub fn after_steps(state: Arriving, bytes: &[u8], start: usize) -> Arriving
    requires { StepsOver state bytes.now start }
    ensures { Takes state bytes.now result }
{
    if start == 0 {
        return state.in_head(bytes);
    }
    let letters = head_bytes::total(state.head_so_far());
    state.searched(bytes, start, letters)
}

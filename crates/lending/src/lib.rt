// A state that is lent: `arriving::take` changes a state where it lies, and here is one that lies in a local.
#![tactic(auto)]

ghost use Rattle.arriving.specs.Calls.{Takes};

use arriving::Arriving;

// The state after these bytes, taken where it lies: the one place from which tests lend a state.
pub fn taken(state: Arriving, bytes: &[u8]) -> Arriving
    ensures { Takes state bytes.now result }
{
    let mut lent = state;
    arriving::take(&mut lent, bytes);
    lent
}

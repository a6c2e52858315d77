// The state of a share that arrives, as C has it: an array of nine numbers that the caller owns, and any numbers may stand in it.
#![tactic(auto)]

ghost use Rattle.std.specs.Prelude.{◌≡◌, length};
ghost use Rattle.c_state.specs.Words.{state_in, nine};

use arriving::Arriving;

// The numbers of a state.
pub const WORDS: usize = 9;

// The state that nine numbers are.
pub fn state_in(words: &[usize]) -> Arriving
    requires { length words.now ≡ 9 }
    ensures { result ≡ state_in words.now }
{
    Arriving {
        at: words[0],
        wrong: words[1],
        n: words[2],
        k: words[3],
        d: words[4],
        node: words[5],
        l: words[6],
        batch: words[7],
        kind: words[8],
    }
}

// Puts a state's nine numbers.
pub fn put_state(state: Arriving, into: &mut [usize])
    requires { length into.old ≡ 9 }
    ensures { into.new ≡ nine state }
{
    into[0] = state.at;
    into[1] = state.wrong;
    into[2] = state.n;
    into[3] = state.k;
    into[4] = state.d;
    into[5] = state.node;
    into[6] = state.l;
    into[7] = state.batch;
    into[8] = state.kind;
}

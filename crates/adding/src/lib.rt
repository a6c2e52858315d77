// Run addition: the letters of one run added into another, the inner loop of nearly everything.
#![tactic(auto)]

pub mod eights;

ghost use Rattle.std.specs.Prelude.{◌≡◌, ◌+◌, ◌≤◌, length};
ghost use Rattle.letters.specs.Algebra.{xors};
ghost use Rattle.letters.specs.Runs.{added};

// Adds the letters of `run` into `into`, from index `at` on. Every other letter of `into` stays as it was.
// The answer is how many letters were added, whatever they are: how many weren't zero is what `worth::add_run` reports. The run must fit: at + run.len() <= into.len().
pub fn add_run(into: &mut [u8], at: usize, run: &[u8]) -> usize
    requires { at + length run.now ≤ length into.old }
    ensures letters { into.new ≡ added xors into.old at run.now }
    ensures count { result ≡ length run.now }
{
    let i = eights::add_rests(into, at, run);
    eights::add_blocks(into, at, run, i);
    run.len()
}

// Run addition for bench/run, which counts it alone. It is no part of the library for C: nobody tests what `requires` says, which the library's own calls
// have proved before they add a run, so it costs what run addition costs them and no more.
#![tactic(auto)]

ghost use Rattle.std.specs.Prelude.{◌≡◌, ◌+◌, ◌≤◌, length, take, drop};
ghost use Rattle.letters.specs.Algebra.{xors};
ghost use Rattle.letters.specs.Runs.{added};

// A run added into another buffer, as `adding::add_run` adds it.
#[unsafe(no_mangle)]
pub extern "C" fn bench_add_run(into: &mut [u8], at: usize, run: &[u8]) -> usize
    requires { at + length run.now ≤ length into.old }
    ensures letters { into.new ≡ added xors into.old at run.now }
    ensures count { result ≡ length run.now }
{
    adding::add_run(into, at, run)
}

// A run added to earlier letters of its own buffer, as `adding_within::add_within` adds it.
#[unsafe(no_mangle)]
pub extern "C" fn bench_add_within(buffer: &mut [u8], to: usize, from: usize, count: usize) -> usize
    requires { (to + count ≤ from) × (from + count ≤ length buffer.old) }
    ensures letters { buffer.new ≡ added xors buffer.old to (take count (drop from buffer.old)) }
    ensures count { result ≡ count }
{
    adding_within::add_within(buffer, to, from, count)
}

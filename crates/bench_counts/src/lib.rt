// Run addition with its report, and counting alone, for bench/run; they stand apart from `bench_runs`, so that run addition alone is compiled as it is for calls that answer no count.
#![tactic(auto)]

ghost use Rattle.std.specs.Prelude.{◌≡◌, ◌+◌, ◌≤◌, length, take, drop};
ghost use Rattle.letters.specs.Algebra.{xors};
ghost use Rattle.letters.specs.Runs.{added};
ghost use Rattle.worth.specs.Worth.{worth_in};

// A run added into another buffer, with its report: how many of the letters weren't zero.
#[unsafe(no_mangle)]
pub extern "C" fn bench_add_run_counted(into: &mut [u8], at: usize, run: &[u8]) -> usize
    requires { at + length run.now ≤ length into.old }
    ensures letters { into.new ≡ added xors into.old at run.now }
    ensures count { result ≡ worth_in run.now 0 (length run.now) }
{
    worth::add_run(into, at, run)
}

// A run added to earlier letters of its own buffer, with its report.
#[unsafe(no_mangle)]
pub extern "C" fn bench_add_within_counted(
    buffer: &mut [u8],
    to: usize,
    from: usize,
    count: usize,
) -> usize
    requires { (to + count ≤ from) × (from + count ≤ length buffer.old) }
    ensures letters { buffer.new ≡ added xors buffer.old to (take count (drop from buffer.old)) }
    ensures count { result ≡ worth_in buffer.old from count }
{
    worth::add_within(buffer, to, from, count)
}

// The letters of a run that aren't zero, as the calls that answer a count go through them.
#[unsafe(no_mangle)]
pub extern "C" fn bench_count(from: &[u8], start: usize, count: usize) -> usize
    requires { start + count ≤ length from.now }
    ensures { result ≡ worth_in from.now start count }
{
    worth::count(&from[start..start + count])
}

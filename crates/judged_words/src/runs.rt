// What each of some numbers makes of bytes, in runs of the same: `0-0 8 at 0, 1-1 0, 2-255 8 at 0`.
use heads::Head;
use judging::Fault;

// What is found for the numbers from `first` on: a share, whichever it is, or what is wrong; or nothing.
#[derive(Clone, Copy)]
pub struct Run {
    pub first: u8,
    pub found: Option<Result<(), Fault>>,
}

// What is found by a judgment.
fn found(judgment: Result<Head, Fault>) -> Result<(), Fault> {
    judgment.map(|_| ())
}

// Writes a run that ends with the number `last`.
fn end(run: Run, last: u8) {
    lines::decimal(usize::from(run.first));
    lines::number(b"-", usize::from(last));
    lines::say(b" ");
    match run.found {
        Some(Ok(())) => lines::decimal(0),
        Some(Err(fault)) => crate::fault(fault),
        None => lines::say(b"none"),
    }
}

// The run that `at` is in, with what is found for it. Where that is something else than before, the run before it is written.
fn next(run: Run, at: u8, found: Option<Result<(), Fault>>) -> Run {
    if found == run.found {
        return run;
    }
    end(run, at.saturating_sub(1));
    lines::say(b", ");
    Run { first: at, found }
}

// What `judge` says of each number below 256, from 0 on: a judgment, or nothing.
pub fn sweep<F: FnMut(u8) -> Option<Result<Head, Fault>>>(mut judge: F)
    requires { F.IsAlwaysCallable judge }
{
    let mut run = Run {
        first: 0,
        found: judge(0).map(found),
    };
    for number in 1..=255 {
        run = next(run, number, judge(number).map(found));
    }
    end(run, 255);
}

// The first time through the files: which of them are shares of one batch, and of which nodes. Of each that can't be compared it is said why.
use crate::batch::Batch;
use crate::input;
use odd_problems::{Matter, Problem};
use std::rt::{Env, Files};

// Looks at one file, which has to be a share of the same batch as those before it.
fn look(
    rt: &(impl Env + Files),
    nth: usize,
    batch: &mut Option<Batch>,
    bytes: &mut [u8],
) -> Result<(), Matter> {
    let count = input::read(rt, nth, bytes)?;
    let head = share::judge(&bytes[..count])?;
    if head.kind == kinds::PREVIEWS {
        return Err(Matter::Previews);
    }
    match batch {
        Some(known) => known.take(head, nth),
        None => {
            *batch = Some(Batch::of(head, nth));
            Ok(())
        }
    }
}

// Looks at all files: the arguments from 1 on. (At 0 stands the program's own name.) The answer is their batch; or something is in the way of an answer, and
// has been said.
pub fn look_all(rt: &(impl Env + Files + Eprint), bytes: &mut [u8]) -> Option<Batch> {
    let mut batch = None;
    let mut all_fit = true;
    for nth in 1..input::arg_count(rt) {
        if let Err(matter) = look(rt, nth, &mut batch, bytes) {
            Problem::File(nth, matter).say(rt);
            all_fit = false;
        }
    }
    if all_fit { batch } else { None }
}

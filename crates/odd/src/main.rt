// Which node holds the odd frame: compares the shares of one batch that its arguments name, and says of each node whether it agrees with the others, of an
// odd one where its first wrong letter stands. What is in the way of an answer it says on standard error, and then there is none. Each file is read twice:
// first all are looked at, and then their letters go where the library's call wants them.
#![tactic(auto)]

use odd_files::{input, looking};
use odd_letters::{fitting, gathering};
use odd_problems::Problem;
use std::rt::{Env, Files};

// Looks at all files, and compares them where nothing is in the way: gathers their letters, asks the library, and tells what it finds.
fn answer(
    rt: &(impl Env + Files + Print + Eprint),
    bytes: &mut [u8],
    packets: &mut [u8],
    file: &mut [u8],
) -> Result<(), Problem> {
    let Some(batch) = looking::look_all(rt, bytes) else {
        return Ok(());
    };
    fitting::fits(&batch, packets.len(), file.len())?;
    let mut ids = [0usize; 16];
    let all = gathering::gather(rt, &batch, bytes, packets, &mut ids)?;
    let g = batch.group();
    let room = lines::part_mut(file, 0, lengths::file_letters(g).unwrap_or(0));
    let report = odd_one::find(g, all.ids, all.letters, room);
    odd_words::tell(rt, &batch, &report)
}

// Without files there is nothing to look at, and no memory is cleared for it. The memories together use most of a stack of 8 MiB. A batch has at least four
// shares here, and its file at most 5/8 of their letters: so whatever fits into the second fits into the others.
fn main(rt: HostRuntime) {
    if input::arg_count(&rt) < 2 {
        Problem::NoFiles.say(&rt);
        return;
    }
    let mut bytes = lines::room::<1048576>();
    let mut packets = lines::room::<3932160>();
    let mut file = lines::room::<2457600>();
    if let Err(problem) = answer(&rt, &mut bytes, &mut packets, &mut file) {
        problem.say(&rt);
    }
}

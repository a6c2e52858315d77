// The calls on shares by their numbers in a script (docs/SCRIPTS.md). The numbers are the scripts' own: so they are matched as they come.
#![tactic(auto)]

mod sweep;

use group::Refusal;
use heads::Head;
use script_line::Line;
use share::Fault;

// A judgment.
fn judgment(judgment: Result<Head, Fault>) {
    lines::say(b": ");
    judged_words::tell(judgment);
}

// The judge's line for these bytes, without its end.
fn judges_line(bytes: &[u8]) {
    let mut line = [0u8; 192];
    let count = verdict::line(bytes, &mut line);
    lines::say(b": ");
    lines::say(lines::line(&line[..count], 0));
}

// The calls that are handed a group and a node: 21 writes a share with a batch number, and 22 tells how long it is; 27 and 28 do it for previews.
fn stored(line: Line, from: &[u8], into: &mut [u8]) -> Result<usize, Refusal> {
    let operation = line.operation;
    let batch = (line.second % 4294967296) as u32;
    match operation {
        21 => share::write(line.group, line.first, batch, from, into),
        22 => share::share_bytes(line.group, line.first),
        27 => share::write_preview(line.group, line.first, batch, from, into),
        _ => share::preview_bytes(line.group, line.first),
    }
}

// The calls on shares themselves: 23 judges, 24 reads, 25 judges what is in B with every byte at an index, and 26 tells how many bytes can stand. The others
// are those above.
pub fn of_shares(line: Line, from: &[u8], into: &mut [u8]) {
    match line.operation {
        23 => judgment(share::judge(from)),
        24 => judgment(share::read(from, into)),
        25 => sweep::every_byte(into, line.own),
        26 => script::answer(Ok(share::good_bytes(from))),
        _ => script::answer(stored(line, from, into)),
    }
}

// The call that a line names: 29 writes the judge's line, and the others are those above.
pub fn call(line: Line, from: &[u8], into: &mut [u8]) {
    if line.operation == 29 {
        judges_line(from);
    } else {
        of_shares(line, from, into);
    }
}

// Judges the share on standard input while it comes in, whatever its length, and keeps none of it. Writes the judge's line as soon as it
// is known, and on standard error how far the share is. Where standard input can't be read, there is a line on standard error, and no
// judgment. What can't be written is seen by who runs this, in tools/programs.sh.
#![tactic(auto)]

mod showing;

use arriving::Arriving;
use heads::Head;
use judging::Fault;
use showing::Screen;
use std::io;
use std::io::{Error, IsTerminal, Read, Write};

// Reads from `stdin` once, at most 4,096 bytes. The answer is the state after them; there is none at the end of the input.
fn burst(stdin: &mut impl Read, state: Arriving) -> io::Result<Option<Arriving>> {
    let mut bytes = [0u8; 4096];
    let count = stdin.read(&mut bytes)?;
    if count == 0 {
        return Ok(None);
    }
    Ok(Some(state.after(&bytes[..count])))
}

// Reads until the judgment is known. The end of the input settles what could still become a share, or already is one; a byte that can't stand
// settles it before, so that nothing behind it is read. A proved loop has to end, and nothing says that an input does: no run comes to the last
// turn of this one.
fn watch<W: Write>(
    stdin: &mut impl Read,
    state: &mut Arriving,
    screen: &mut Screen<W>,
) -> io::Result<()> {
    for _ in 0..u64::MAX {
        let Some(next) = burst(stdin, *state)? else {
            return Ok(());
        };
        screen.show(*state, next);
        *state = next;
        if next.wrong != 0 {
            return Ok(());
        }
    }
    Err(Error::other("it doesn't end"))
}

// Writes the line of this judgment.
fn tell(rt: &impl Print, judgment: Result<Head, Fault>) {
    let mut line = [0u8; 192];
    let count = verdict::judgment_line(judgment, &mut line);
    let _ = rt.write_all(&line[..count]);
}

fn main(rt: HostRuntime) {
    let stderr = rt.stderr();
    let mut screen = Screen {
        to: stderr,
        moves: stderr.is_terminal(),
    };
    let mut state = Arriving::start();
    match watch(&mut rt.stdin(), &mut state, &mut screen) {
        Ok(()) => {
            screen.end(state);
            tell(&rt, state.judge());
        }
        Err(_) => screen.give_up(state),
    }
}

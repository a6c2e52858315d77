// What standard error says of a share that is coming in. Only a terminal can take a line back, so only there it moves.
use arriving::{Arriving, Coming};
use group::Refusal;
use judging::Fault;
use std::io::Write;

// Where it is said.
#[derive(Drop)]
pub struct Screen<W> {
    pub to: W,
    // It is a terminal.
    pub moves: bool,
}

impl<W: Write> Screen<W> {
    // Writes these words. Where they can't be written, there is nobody to tell.
    fn say(&mut self, words: &[u8]) {
        let _ = self.to.write_all(words);
    }

    // Says how far a share is, with no end of the line.
    fn say_share(&mut self, coming: Coming, part: usize) {
        let mut line = [0u8; 256];
        let count = progress::line(coming.head, part, coming.bytes, &mut line);
        self.say(&line[..count]);
    }

    // Says which byte can't stand, with no end of the line.
    fn say_wrong(&mut self, refusal: Refusal, at: usize) {
        let mut line = [0u8; 256];
        let count = progress::wrong(refusal, at, &mut line);
        self.say(&line[..count]);
    }

    // Leaves the line in which a share was shown, if its head was in.
    fn leave(&mut self, state: Arriving) {
        if self.moves && state.coming().is_ok() {
            self.say(b"\n");
        }
    }

    // After a burst, shows how far the share is, over what was shown before, once its head is in. `before` is the state before the burst.
    pub fn show(&mut self, before: Arriving, state: Arriving) {
        if !self.moves {
            return;
        }
        match state.coming() {
            Ok(coming) => {
                self.say(b"\r");
                self.say_share(coming, state.at);
            }
            Err(_) => self.leave(before),
        }
    }

    // The last line: how far a share came, or which byte can't be one of it and what would stand there. Where it moved, a share's line is there
    // already, without its end.
    pub fn end(&mut self, state: Arriving) {
        match state.coming() {
            Ok(coming) => {
                if !self.moves {
                    self.say_share(coming, state.at);
                }
            }
            Err(Fault::Refused(_)) => {
                let _ = write!(self.to, "no head yet, bytes so far: {}", state.at);
            }
            Err(Fault::Malformed(refusal, at)) => self.say_wrong(refusal, at),
        }
        self.say(b"\n");
    }

    // The last line where the input can't be read to its end, so that there is no judgment.
    pub fn give_up(&mut self, state: Arriving) {
        self.leave(state);
        self.say(b"watch: standard input can't be read\n");
    }
}

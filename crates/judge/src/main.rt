// Judges the share on standard input, and writes one line: what it is. Where standard input can't be read, there is a line on standard
// error, and no judgment. A line that can't be written is seen by who runs this, in tools/programs.sh.
#![tactic(auto)]

// Writes the line for these bytes.
fn tell(rt: &impl Print, bytes: &[u8]) {
    let mut line = [0u8; 192];
    let count = verdict::line(bytes, &mut line);
    let _ = rt.write_all(&line[..count]);
}

// Reads one byte more than the line is made for, to see whether there are too many.
fn main(rt: HostRuntime) {
    let mut bytes = [0u8; 65537];
    match filling::read_full(&mut rt.stdin(), &mut bytes) {
        Ok(count) => tell(&rt, &bytes[..count]),
        Err(_) => {
            let _ = eprintln!(rt; "judge: standard input can't be read");
        }
    }
}

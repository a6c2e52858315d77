// Bytes read until there is room for no more, from whatever can be read.
#![tactic(auto)]

ghost use Rattle.std.specs.Io.{ReadsAtMost};

use std::io::{Read, Result};

// Reads until `bytes` is full or the input ends; or a read fails. The answer is how many bytes there are.
pub fn read_full(input: &mut impl Read, bytes: &mut [u8]) -> Result<usize>
    ensures { ReadsAtMost result bytes.new }
{
    let mut done = 0;
    // No count: each turn goes on by as many bytes as it read.
    while done < bytes.len() {
        let more = input.read(&mut bytes[done..])?;
        if more == 0 {
            break;
        }
        done += more;
    }
    Ok(done)
}

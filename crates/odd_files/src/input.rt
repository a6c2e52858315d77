// A file's bytes, or what is the matter with a file that can't be read or is too long.
ghost use Rattle.std.specs.Io.{ReadsAtMost};

use odd_problems::Matter;
use std::env::FillError;
use std::fs;
use std::io::{Error, Read};
use std::rt::{Env, Files};

// Reads a file to its end. Whether there is room for it the next byte tells: where there is one though `bytes` isn't full, the file has grown behind its end.
fn read_open(file: &mut impl Read, bytes: &mut [u8]) -> Result<usize, Matter>
    ensures { ReadsAtMost result bytes.new }
{
    let count = filling::read_full(file, bytes)?;
    let mut next = [0u8; 1];
    if file.read(&mut next)? == 0 {
        return Ok(count);
    }
    if count < bytes.len() {
        return Err(Matter::from(Error::other("it grows while it is read")));
    }
    Err(Matter::Long(bytes.len()))
}

// Reads the file that argument `nth` names, whole, into the start of `bytes`. The answer is how many bytes it has.
pub fn read(rt: &(impl Env + Files), nth: usize, bytes: &mut [u8]) -> Result<usize, Matter>
    ensures { ReadsAtMost result bytes.new }
{
    let mut path = io::buffer();
    let count = rt.arg(nth, &mut path).map_err(|_| Matter::LongName)?;
    let name = str::from_utf8(&path[..count]).map_err(|_| Matter::OtherName)?;
    let mut file = fs::open(rt, name)?;
    read_open(&mut file, bytes)
}

// How many arguments the program has, its own name among them: so many come before the first that there isn't.
pub fn arg_count(env: &impl Env) -> usize {
    for nth in 0..usize::MAX {
        if let Err(FillError::NotPresent) = env.arg(nth, &mut []) {
            return nth;
        }
    }
    usize::MAX
}

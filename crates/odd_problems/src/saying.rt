// What stands in a line beside words and numbers: a file's name, a group, a batch.
use group::Group;
use heads::Head;
use std::fmt::{Display, Formatter, InlineText, Result, Write};
use std::io::Error;
use std::rt::Env;

// The name of a file: the argument with this number.
#[derive_where(Clone, Copy)]
pub struct Name<'a, E>(pub &'a E, pub usize);

impl<'a, E: Env> Display for Name<'a, E> {
    fn fmt<W: Write>(&self, f: &mut Formatter<W>) -> Result {
        let mut name = io::buffer();
        let count = self.0.arg(self.1, &mut name).unwrap_or(0);
        f.write_str(str::from_utf8(&name[..count]).unwrap_or(""))
    }
}

// What an error says, without the number of the system's error, which stands behind that.
#[derive(Drop)]
pub struct Reason(pub Error);

impl Display for Reason {
    fn fmt<W: Write>(&self, f: &mut Formatter<W>) -> Result {
        let text = InlineText::<128>::of(&self.0);
        let all = text.as_str();
        let words = all
            .split_once(" (os error ")
            .map_or(all, |(words, _)| words);
        f.write_str(words)
    }
}

// A group: `[6,3,4]`.
#[derive(Clone, Copy)]
pub struct Numbers(pub Group);

impl Display for Numbers {
    fn fmt<W: Write>(&self, f: &mut Formatter<W>) -> Result {
        let Group { n, k, d, .. } = self.0;
        write!(f, "[{n},{k},{d}]")
    }
}

// A batch: `[6,3,4], L = 20, batch 7`.
#[derive(Clone, Copy)]
pub struct Batch(pub Head);

impl Display for Batch {
    fn fmt<W: Write>(&self, f: &mut Formatter<W>) -> Result {
        let Head { group, batch, .. } = self.0;
        write!(f, "{}, L = {}, batch {batch}", Numbers(group), group.l)
    }
}

// So many nodes are wanted: `k+2 = 5 nodes`.
#[derive(Clone, Copy)]
pub struct Wanted(pub usize);

impl Display for Wanted {
    fn fmt<W: Write>(&self, f: &mut Formatter<W>) -> Result {
        let nodes = self.0.saturating_add(2);
        write!(f, "k+2 = {nodes} nodes")
    }
}

// What is in the way of an answer of the program `odd`, and what it says of that on standard error: what it is, and what to do.
#![tactic(auto)]

pub mod saying;

use group::{Group, Refusal};
use heads::Head;
use judging::Fault;
use saying::{Batch, Name, Numbers, Reason, Wanted};
use std::fmt::Display;
use std::io::Error;
use std::rt::Env;

// Standard error's descriptor, for names that aren't text: what prints by the runtime there prints text alone.
const STDERR: i32 = 2;

// What is the matter with a file.
#[derive(Drop)]
pub enum Matter {
    // Its argument is longer than any file's name.
    LongName,
    // Its name isn't text. What opens files takes no other name.
    OtherName,
    // It can't be opened or read: why, as the system says it.
    Unread(Error),
    // It has more bytes than these, for which there is room.
    Long(usize),
    // Its bytes are the beginning of a share.
    Cut,
    // Its bytes are no share, as the judge says it: what is wrong, and where.
    Malformed(Refusal, usize),
    // It is a share of previews.
    Previews,
    // Its share has this head, of another group or batch than the one with the head `known`, which the file `first` has.
    OtherBatch {
        head: Head,
        first: usize,
        known: Head,
    },
    // Its share is of a node that the file `earlier` is of.
    SameNode {
        node: usize,
        earlier: usize,
    },
    // It isn't the share any more that it was when it was looked at first.
    Changed,
}

impl From<Error> for Matter {
    fn from(error: Error) -> Matter {
        Matter::Unread(error)
    }
}

impl From<Fault> for Matter {
    fn from(fault: Fault) -> Matter {
        match fault {
            Fault::Refused(_) => Matter::Cut,
            Fault::Malformed(refusal, at) => Matter::Malformed(refusal, at),
        }
    }
}

// What is in the way of an answer.
#[derive(Drop)]
pub enum Problem {
    // There are no files.
    NoFiles,
    // Something is the matter with the file that this argument names.
    File(usize, Matter),
    // Of so many nodes there are shares, which are fewer than k+2.
    TooFew { k: usize, here: usize },
    // The group hasn't as many nodes as it takes.
    NeverEnough(Group),
    // The shares have more letters than these, for which there is room.
    LongBatch(usize),
    // The library's call refuses the shares. What could be refused is looked at before, so this means that the program is wrong.
    Refused(Refusal),
}

impl From<Refusal> for Problem {
    fn from(refusal: Refusal) -> Problem {
        Problem::Refused(refusal)
    }
}

// A line. Where it can't be written, there is nobody to tell.
fn line(rt: &impl Eprint, words: impl Display + Drop) {
    let _ = rt.eprintln(format_args!("odd: {words}"));
}

// A line on a file: `odd: a.share: `, and what is the matter with it.
fn line_on(rt: &(impl Env + Eprint), nth: usize, words: impl Display + Drop) {
    line(rt, format_args!("{}: {words}", Name(rt, nth)));
}

fn no_files(rt: &impl Eprint) {
    line(
        rt,
        "no files: give it the shares of one batch, of at least k+2 nodes",
    );
}

fn long_name(rt: &impl Eprint, nth: usize) {
    line(
        rt,
        format_args!("argument {nth} is too long for the name of a file: at most 4095 bytes"),
    );
}

// A name that isn't text is written as it is, byte for byte.
fn other_name(rt: &(impl Env + Eprint), nth: usize) {
    let mut name = io::buffer();
    let count = rt.arg(nth, &mut name).unwrap_or(0);
    let _ = eprint!(rt; "odd: ");
    io::write_all(STDERR, &name[..count]);
    let _ = eprintln!(rt;
        ": its name is not in UTF-8, and this program opens no other: give the file another name"
    );
}

fn long_file(rt: &(impl Env + Eprint), nth: usize, most: usize) {
    line_on(
        rt,
        nth,
        format_args!(
            "too long for this program, which takes {most} bytes: the library's call takes it"
        ),
    );
}

fn cut(rt: &(impl Env + Eprint), nth: usize) {
    line_on(
        rt,
        nth,
        "unfinished, the beginning of a share and not all of it: copy it anew, or leave it out",
    );
}

// As the judge says it.
fn malformed(rt: &(impl Env + Eprint), nth: usize, refusal: Refusal, at: usize) {
    let what = group::refusal_number(refusal);
    line_on(
        rt,
        nth,
        format_args!("malformed {what} at {at}, so no share: copy it anew, or leave it out"),
    );
}

fn previews(rt: &(impl Env + Eprint), nth: usize) {
    line_on(
        rt,
        nth,
        "a share of previews: leave it out, this compares batches of the repairing code",
    );
}

fn other_batch(rt: &(impl Env + Eprint), nth: usize, head: Head, first: usize, known: Head) {
    let name = Name(rt, first);
    line_on(
        rt,
        nth,
        format_args!(
            "{}, but {name} is of {}: give shares of one batch",
            Batch(head),
            Batch(known)
        ),
    );
}

fn same_node(rt: &(impl Env + Eprint), nth: usize, node: usize, earlier: usize) {
    let name = Name(rt, earlier);
    line_on(
        rt,
        nth,
        format_args!("node {node} again, after {name}: give one share of each node"),
    );
}

fn changed(rt: &(impl Env + Eprint), nth: usize) {
    line_on(
        rt,
        nth,
        "not the share any more that it was a moment ago: each is read twice, so give files that stay as they are",
    );
}

fn too_few(rt: &impl Eprint, k: usize, here: usize) {
    line(
        rt,
        format_args!(
            "it needs {} and has {here}: give more shares of this batch",
            Wanted(k)
        ),
    );
}

fn never_enough(rt: &impl Eprint, g: Group) {
    line(
        rt,
        format_args!(
            "it needs {}, and {} never has more than {}",
            Wanted(g.k),
            Numbers(g),
            g.n
        ),
    );
}

fn long_batch(rt: &impl Eprint, most: usize) {
    line(
        rt,
        format_args!(
            "too long for this program, which takes {most} letters of all shares together: the library's call takes them"
        ),
    );
}

fn refused(rt: &impl Eprint, refusal: Refusal) {
    let number = group::refusal_number(refusal);
    line(
        rt,
        format_args!(
            "the library's call refuses this by {number}: that is a mistake in this program"
        ),
    );
}

impl Matter {
    // Says what is the matter with the file that argument `nth` names.
    fn say(self, rt: &(impl Env + Eprint), nth: usize) {
        match self {
            Matter::LongName => long_name(rt, nth),
            Matter::OtherName => other_name(rt, nth),
            Matter::Unread(error) => line_on(rt, nth, Reason(error)),
            Matter::Long(most) => long_file(rt, nth, most),
            Matter::Cut => cut(rt, nth),
            Matter::Malformed(refusal, at) => malformed(rt, nth, refusal, at),
            Matter::Previews => previews(rt, nth),
            Matter::OtherBatch { head, first, known } => other_batch(rt, nth, head, first, known),
            Matter::SameNode { node, earlier } => same_node(rt, nth, node, earlier),
            Matter::Changed => changed(rt, nth),
        }
    }
}

impl Problem {
    // Says it, in a line of standard error.
    pub fn say(self, rt: &(impl Env + Eprint)) {
        match self {
            Problem::NoFiles => no_files(rt),
            Problem::File(nth, matter) => matter.say(rt, nth),
            Problem::TooFew { k, here } => too_few(rt, k, here),
            Problem::NeverEnough(g) => never_enough(rt, g),
            Problem::LongBatch(most) => long_batch(rt, most),
            Problem::Refused(refusal) => refused(rt, refusal),
        }
    }
}

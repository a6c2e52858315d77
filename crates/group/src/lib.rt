// A group of nodes and its numbers, and the refusals and checks that calls share.
#![tactic(auto)]

ghost use Rattle.std.specs.Prelude.{◌≡◌};
ghost use Rattle.group.specs.Answers.{refusal_number, number_of};
ghost use Rattle.group.specs.Ranges.{group_of};

// A group's numbers, any numbers: n nodes, any k of which give a batch back and any d of which rebuild a lost one,
// and l letters in a sequence. Which numbers are allowed is what `checks` tells.
#[derive(Clone, Copy, Debug, PartialEq, Eq)]
pub struct Group {
    pub n: usize,
    pub k: usize,
    pub d: usize,
    pub l: usize,
}

// The group of these numbers. All groups are made here.
pub fn of(n: usize, k: usize, d: usize, l: usize) -> Group
    ensures { result ≡ group_of n k d l }
{
    Group { n, k, d, l }
}

// Why a call is turned down. `refusal_number` in specs/ gives the number of document 01 (docs/SCHEME.md, 11) for each. A check is a `Result<(), Refusal>`; a call answers a
// `Result<usize, Refusal>`, a number (a count, a length, a place; 0 where there is nothing to tell), or why it is refused.
#[derive(Clone, Copy, Debug, PartialEq, Eq)]
pub enum Refusal {
    // 1: n, k or d is outside its range.
    Numbers,
    // 2: L is outside its range.
    Length,
    // 3: an id is outside 1..n, the number of ids is wrong, or a rank or a column is.
    Ids,
    // 4: the ids don't fall strictly, or the lost node is among its helpers.
    Order,
    // 5: a lent input, or the buffer worked on in place, has not the exact length.
    Input,
    // 6: a lent output has not the exact length.
    Output,
    // 7: the bytes are the beginning of some share, but not all of it.
    Unfinished,
    // 8 to 12: the bytes are neither a share nor the beginning of one. Where the first byte that can't stand would stand tells them apart.
    // 8: the kind of a record.
    Kind,
    // 9: a number of the head.
    HeadNumber,
    // 10: the zeros that fill up the last block.
    Filler,
    // 11: the total.
    Total,
    // 12: after the end.
    AfterEnd,
    // 13: fewer nodes are present than k+2. It comes between 5 and 6.
    TooFew,
}

// A refusal's number in the table of document 01 (docs/SCHEME.md, 11). (By a `match`: numbers at the cases themselves would not let the edits `four_as_three` and `thirteen_as_five` be written.)
pub fn refusal_number(refusal: Refusal) -> usize
    ensures { result ≡ refusal_number refusal }
{
    match refusal {
        Refusal::Numbers => 1,
        Refusal::Length => 2,
        Refusal::Ids => 3,
        Refusal::Order => 4,
        Refusal::Input => 5,
        Refusal::Output => 6,
        Refusal::Unfinished => 7,
        Refusal::Kind => 8,
        Refusal::HeadNumber => 9,
        Refusal::Filler => 10,
        Refusal::Total => 11,
        Refusal::AfterEnd => 12,
        Refusal::TooFew => 13,
    }
}

// An answer's number: 0 where nothing is refused.
pub fn answer_number(answer: Result<usize, Refusal>) -> usize
    ensures { result ≡ number_of answer }
{
    match answer {
        Ok(_) => 0,
        Err(refusal) => refusal_number(refusal),
    }
}

// The words and numbers of the judge's line: of a share, and of bytes with something wrong.
#![tactic(auto)]

ghost use Rattle.std.specs.Prelude.{◌≡◌, ◌≤◌, length};
ghost use Rattle.text.specs.Text.{Put};
ghost use Rattle.verdict_words.specs.Words.{complete_group, complete_line, malformed_line};

use group::Group;
use heads::Head;

// Puts `complete` and the group's three numbers.
fn put_group(g: Group, line: &mut [u8; 192]) -> usize
    ensures text { Put line.old 0 (complete_group g) result line.new }
    ensures short { result ≤ 71 }
{
    let n = text::put_number(line, 0, b"complete ", g.n);
    let k = text::put_number(line, n, b" ", g.k);
    text::put_number(line, k, b" ", g.d)
}

// Puts the line of a share: its group, and the rest by name.
pub fn put_complete(head: Head, letters: usize, line: &mut [u8; 192]) -> usize
    ensures { Put line.old 0 (complete_line head letters) result line.new }
{
    let group = put_group(head.group, line);
    let node = text::put_number(line, group, b" node ", head.node);
    let length = text::put_number(line, node, b" length ", head.group.l);
    let batch = text::put_number(line, length, b" batch ", head.batch as usize);
    let end = text::put_number(line, batch, b" letters ", letters);
    text::put(line, end, b"\n")
}

// Puts the line of bytes with something wrong: its number, and the index of the first byte that can't stand there.
pub fn put_malformed(number: usize, at: usize, line: &mut [u8; 192]) -> usize
    ensures { Put line.old 0 (malformed_line number at) result line.new }
{
    let what = text::put_number(line, 0, b"malformed ", number);
    let place = text::put_number(line, what, b" at ", at);
    text::put(line, place, b"\n")
}

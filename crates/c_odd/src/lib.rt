// Which node is lying, for C.
#![tactic(auto)]

ghost use Rattle.std.specs.Prelude.{◌≡◌, length};
ghost use Rattle.group.specs.Answers.{check_number};
ghost use Rattle.group.specs.Ranges.{group_of};
ghost use Rattle.c_odd.specs.Odd.{state_number, place_number, report_numbers, told_refusal, Names, Shown};

use group::{Group, Refusal};
use odd_one::{Node, Standing};

// A node's state: 0 absent, 1 agreeing, 2 unknown, 3 odd.
fn state(node: Node) -> usize
    ensures { result ≡ state_number node.standing }
{
    let standing = node.standing;
    match standing {
        Standing::Absent => 0,
        Standing::Agreeing => 1,
        Standing::Unknown => 2,
        Standing::Odd(_) => 3,
    }
}

// The place of its first wrong letter, 0 where it isn't odd: C has no Option.
fn place(node: Node) -> usize
    ensures { result ≡ place_number node.standing }
{
    let standing = node.standing;
    match standing {
        Standing::Absent => 0,
        Standing::Agreeing => 0,
        Standing::Unknown => 0,
        Standing::Odd(place) => place,
    }
}

// Both for each node, one after another.
fn put(nodes: [Node; 16], report: &mut [usize])
    requires { length report.old ≡ 32 }
    ensures { report.new ≡ report_numbers nodes }
{
    for i in 0..16 {
        report[i + i] = state(nodes[i]);
        report[i + i + 1] = place(nodes[i]);
    }
}

// Whether the call is refused, for a report of so many numbers.
fn check(g: Group, ids: &[usize], packets: usize, file: usize, report: usize) -> Result<(), Refusal>
    ensures { check_number result ≡ told_refusal g ids.now packets file report }
{
    odd_one::check(g, ids, packets, file)?;
    group_checks::exact(report, 32, Refusal::Output)
}

// The call where it isn't refused.
fn tell(g: Group, ids: &[usize], packets: &[u8], file: &mut [u8], report: &mut [usize]) -> usize
    requires { told_refusal g ids.now (length packets.now) (length file.old) (length report.old) ≡ 0 }
    ensures { (result ≡ 0) × (Shown g ids.now packets.now file.new report.new) }
{
    let found = odd_one::find(g, ids, packets, file);
    let nodes = found.nodes;
    put(nodes, report);
    0
}

// Says of each node whether it agrees with the others. Refusals: 1, 2, 3, 4, 5 for the packets, 13, 6 for the file or the report.
// C hands numbers over one by one.
#[unsafe(no_mangle)]
pub extern "C" fn dulvaspen_odd(
    n: usize,
    k: usize,
    d: usize,
    l: usize,
    ids: &[usize],
    packets: &[u8],
    file: &mut [u8],
    report: &mut [usize],
) -> usize
    ensures { Names (group_of n k d l) ids.now packets.now file.old file.new report.old report.new result }
{
    let g = group::of(n, k, d, l);
    match check(g, ids, packets.len(), file.len(), report.len()) {
        Err(refusal) => group::refusal_number(refusal),
        Ok(()) => tell(g, ids, packets, file, report),
    }
}

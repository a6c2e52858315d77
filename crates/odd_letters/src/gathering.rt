// The second time through the files: their letters, one node after another, from the highest id down.
ghost use Rattle.std.specs.Prelude.{◌≤◌, length, IfOk};

use heads::{Head, bytes as head_bytes};
use odd_files::batch::Batch;
use odd_files::input;
use odd_problems::{Matter, Problem};
use std::rt::{Env, Files};

// The ids of the nodes that have a file, and their letters in the same order.
#[derive(Clone, Copy)]
pub struct Gathered<'a> {
    pub ids: &'a [usize],
    pub letters: &'a [u8],
}

// Reads the letters of the share with this head into `room`. The file may have another share now, or none.
fn read(
    rt: &(impl Env + Files),
    nth: usize,
    head: Head,
    bytes: &mut [u8],
    room: &mut [u8],
) -> Result<(), Matter> {
    let count = input::read(rt, nth, bytes)?;
    if share::read(&bytes[..count], room) == Ok(head) {
        Ok(())
    } else {
        Err(Matter::Changed)
    }
}

// Puts a node's letters behind those of the nodes before it, which end at `end`. The answer is where they end.
fn add(
    rt: &(impl Env + Files),
    nth: usize,
    head: Head,
    bytes: &mut [u8],
    packets: &mut [u8],
    end: usize,
) -> Result<usize, Problem>
    requires { end ≤ length packets.old }
    ensures { IfOk result (λ e. e ≤ length packets.new) }
{
    let count = head_bytes::total(head);
    if packets.len() - end < count {
        return Err(Problem::LongBatch(packets.len()));
    }
    let after = end + count;
    read(rt, nth, head, bytes, &mut packets[end..after]).map_err(|matter| Problem::File(
        nth, matter,
    ))?;
    Ok(after)
}

// All nodes that have a file, as far as there is room for their ids.
pub fn gather<'a>(
    rt: &(impl Env + Files),
    batch: &Batch,
    bytes: &mut [u8],
    packets: &'a mut [u8],
    ids: &'a mut [usize],
) -> Result<Gathered<'a>, Problem> {
    let mut nodes = 0;
    let mut end = 0;
    for node in (1..17).rev() {
        if let Some(nth) = batch.file_of(node) {
            end = add(rt, nth, batch.head_of(node), bytes, packets, end)?;
            if nodes < ids.len() {
                ids[nodes] = node;
                nodes += 1;
            }
        }
    }
    Ok(Gathered {
        ids: &ids[..nodes],
        letters: &packets[..end],
    })
}

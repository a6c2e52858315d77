// Recovery of previews: the file from the pieces of k nodes.
ghost use Rattle.std.specs.Prelude.{◌≡◌};
ghost use Rattle.group.specs.Answers.{check_number};
ghost use Rattle.preview_recovering.specs.Calls.{preview_readers_refusal, PreviewRecovered};
ghost use Rattle.preview_recovering.specs.Steps.Checked.{CheckedReaders};

use group::{Group, Refusal};
use sequences::rows::{self, Previews};

// Turns the k pieces in `buffer`, L letters each, one after another by rank, into the file, in place: the one file that has those pieces, for any letters whatever.
// The answer is how many letters that aren't zero it takes to add: the terms of document 01's solving sum whose letter isn't zero in the file that comes out.
// Refusals: 1, 2, 3 for an id outside 1..n or another number of ids than k,
// 4 for ids that don't fall strictly, 5 for a buffer of another length than k*L. A refused call leaves `buffer` as it was.
// (Beside `recovering::recovery::recover`: they have the two steps in common, and what a step does is each code's own.)
pub fn recover(g: Group, ids: &[usize], buffer: &mut [u8]) -> Result<usize, Refusal>
    ensures { PreviewRecovered g ids.now buffer.old buffer.new result }
{
    check_readers(g, ids)?;
    recover_exact(g, ids, buffer)
}

// The group and the ids: refusals 1 to 4.
fn check_readers(g: Group, ids: &[usize]) -> Result<(), Refusal>
    ensures { check_number result ≡ preview_readers_refusal g ids.now }
{
    preview_numbers::checks::group(g)?;
    ids::check(g, g.k, ids)
}

// The same once these are right: refusal 5, and then the solver has the whole buffer.
fn recover_exact(g: Group, ids: &[usize], buffer: &mut [u8]) -> Result<usize, Refusal>
    requires { CheckedReaders g ids.now }
    ensures { PreviewRecovered g ids.now buffer.old buffer.new result }
{
    let wanted = preview_numbers::known::file(g);
    if buffer.len() != wanted {
        return Err(Refusal::Input);
    }
    let rows = rows::of(&Previews, ids);
    Ok(solving::solve_counted(buffer, g.k, g.l, &rows))
}

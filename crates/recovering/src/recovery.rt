// Recovery: the file from the pieces of k nodes.
ghost use Rattle.std.specs.Prelude.{◌≡◌};
ghost use Rattle.group.specs.Answers.{check_number};
ghost use Rattle.recovering.specs.Calls.{readers_refusal, Recovered};
ghost use Rattle.recovering.specs.Steps.Checked.{Readers};

use group::{Group, Refusal};
use lengths::known::Known;
use matrix::senders::Senders;
use sequences::rows::{self, Tabled};

// Turns the pieces in `buffer`, laid out as the file, into the file, in place: the one file that has those pieces, for any letters whatever.
// The answer is how many letters that aren't zero it takes to add: the terms of document 01's sums whose letter isn't zero in the file that comes out.
// Refusals: 1, 2, 3 for an id outside 1..n or another number of ids than k,
// 4 for ids that don't fall strictly, 5 for a buffer of another length than B*L. A refused call leaves `buffer` as it was.
pub fn recover(g: Group, ids: &[usize], buffer: &mut [u8]) -> Result<usize, Refusal>
    ensures { Recovered g ids.now buffer.old buffer.new result }
{
    check_readers(g, ids)?;
    recover_exact(g, ids, buffer)
}

// The group and the ids: refusals 1 to 4.
fn check_readers(g: Group, ids: &[usize]) -> Result<(), Refusal>
    ensures { check_number result ≡ readers_refusal g ids.now }
{
    group_checks::group(g)?;
    ids::check(g, g.k, ids)
}

// The same once these are right: refusal 5, and then the columns.
fn recover_exact(g: Group, ids: &[usize], buffer: &mut [u8]) -> Result<usize, Refusal>
    requires { Readers g ids.now }
    ensures { Recovered g ids.now buffer.old buffer.new result }
{
    let wanted = Known { g }.file();
    if buffer.len() != wanted {
        return Err(Refusal::Input);
    }
    let table = shifts::all();
    let senders = Senders {
        g,
        ids,
        rows: &rows::of(&Tabled { table: &table }, ids),
    };
    solved_columns::recover_columns(&senders, buffer);
    Ok(file_count::of_file(&senders, buffer))
}

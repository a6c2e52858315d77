// Whether the shares of a batch can be compared: they are enough, and there is room for their letters. What is in the way is handed back.
use group::Group;
use heads::bytes as head_bytes;
use odd_files::batch::Batch;
use odd_problems::Problem;

// How many letters all nodes that have a file have.
fn letters(batch: &Batch) -> usize {
    let mut letters: usize = 0;
    for node in 1..17 {
        if batch.file_of(node).is_some() {
            letters = letters.saturating_add(head_bytes::total(batch.head_of(node)));
        }
    }
    letters
}

// There are as many nodes as it takes, k+2.
fn enough(g: Group, here: usize) -> Result<(), Problem> {
    let wanted = g.k.saturating_add(2);
    if g.n < wanted {
        return Err(Problem::NeverEnough(g));
    }
    if here < wanted {
        return Err(Problem::TooFew { k: g.k, here });
    }
    Ok(())
}

// The memories have room for all packets and for the file.
fn has_room(batch: &Batch, packets: usize, file: usize) -> Result<(), Problem> {
    let file_letters = lengths::file_letters(batch.group()).unwrap_or(0);
    if packets < letters(batch) || file < file_letters {
        return Err(Problem::LongBatch(packets));
    }
    Ok(())
}

// Both.
pub fn fits(batch: &Batch, packets: usize, file: usize) -> Result<(), Problem> {
    enough(batch.group(), batch.nodes())?;
    has_room(batch, packets, file)
}

// Adding a run that is moved right and seen through a window, as a helper's piece is made.
ghost use Rattle.sequences.specs.Steps.Windows.{Cleared, Seen};

// Sets every letter to zero.
pub fn clear(letters: &mut [u8])
    ensures { Cleared letters.old letters.new }
{
    letters.fill(0);
}

// Adds to each letter of `into` the letter of `run` that stands `behind` places further on. Letters pushed outside are dropped.
fn add_from(into: &mut [u8], run: &[u8], behind: usize)
    ensures { Seen run.now behind 0 into.old into.new }
{
    if run.len() <= behind {
        return;
    }
    let count = into.len().min(run.len() - behind);
    let end = behind + count;
    adding::add_run(into, 0, &run[behind..end]);
}

// Adds to each letter of `into` the letter of `run` that stands `ahead` places before it. Letters pushed outside are dropped.
fn add_at(into: &mut [u8], run: &[u8], ahead: usize)
    ensures { Seen run.now 0 ahead into.old into.new }
{
    if into.len() <= ahead {
        return;
    }
    let count = (into.len() - ahead).min(run.len());
    adding::add_run(into, ahead, &run[0..count]);
}

// Adds `run`, moved right by `lead`, as it is seen through a window that leaves out its first `skip` places:
// letter p of `into` gets letter p + skip - lead of `run`, which is zero outside the run.
pub fn add_seen(into: &mut [u8], run: &[u8], skip: usize, lead: usize)
    ensures { Seen run.now skip lead into.old into.new }
{
    if lead <= skip {
        add_from(into, run, skip - lead);
    } else {
        add_at(into, run, lead - skip);
    }
}

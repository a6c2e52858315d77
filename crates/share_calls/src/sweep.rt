// Every byte at an index.

// Judges a share with each byte at an index, and puts its own back: told in runs of the same judgment.
pub fn every_byte(share: &mut [u8], at: usize) {
    lines::say(b": ");
    if share.len() <= at {
        return;
    }
    let own = share[at];
    judged_words::sweep(|byte| {
        lines::put(share, at, &[byte]);
        Some(share::judge(share))
    });
    lines::put(share, at, &[own]);
}

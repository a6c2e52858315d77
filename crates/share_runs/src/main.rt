// Runs the share's calls as the script on standard input says, and writes each line again with what comes back. tools/share_model.py makes
// the script and what must be written, from documents 01 and 02 (docs/SCHEME.md, 9 and 11) alone.
#![tactic(auto)]

fn main() {
    script::of_one_part(|line, _found, from, into| share_calls::of_shares(line, from, into));
}

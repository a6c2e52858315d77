// Runs the store's calls as the script on standard input says, and writes each line again with what comes back. tools/store_model makes the
// script and what must be written, from document 01 (docs/SCHEME.md) alone and by elimination.
#![tactic(auto)]

fn main() {
    script::of_one_part(|line, found, from, into| calls::call(line, found, from, into));
}

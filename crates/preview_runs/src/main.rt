// Runs the calls of previews as the script on standard input says, and writes each line again with what comes back. tools/preview_model.py makes
// the script and what must be written, from documents 01 and 02 (docs/SCHEME.md) alone and by elimination.
#![tactic(auto)]

fn main() {
    script::of_one_part(|line, found, from, into| preview_calls::call(line, found, from, into));
}

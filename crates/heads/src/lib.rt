// The heads that a share may have, of any kind in the table of `kinds`: their bytes written, read back and tested.
#![tactic(auto)]

pub mod bytes;

use group::Group;

// A share's head: whose letters it holds, of which batch, and of which kind.
#[derive(Clone, Copy, Debug, PartialEq, Eq)]
pub struct Head {
    pub group: Group,
    pub node: usize,
    pub batch: u32,
    pub kind: usize,
}

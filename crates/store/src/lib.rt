// The store: every call of the repairing code under one roof. What a node holds is made in `nodes`, what it sends in `sending` and, for a lost
// node, in `helpers`; the file comes back in `recovering`, and a lost node in `rebuilding`.
#![tactic(auto)]

pub use helpers::helping;
pub use nodes::encoding;
pub use rebuilding::repairing;
pub use recovering::recovery;
pub use sending::pieces;

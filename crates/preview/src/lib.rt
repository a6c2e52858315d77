// Previews: every call of the plain k-of-n code under one roof, for a group whose d is 0. What a node holds is made in `preview_packets`, what it sends in
// `preview_pieces`; the file comes back in `preview_recovering`. The lengths that a caller has to lend are in `preview_numbers`.
#![tactic(auto)]

pub use preview_numbers::{file_letters, packet_letters};
pub use preview_packets::encoding;
pub use preview_pieces::pieces;
pub use preview_recovering::recovery;

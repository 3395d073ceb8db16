//! The replies to commands: their text, and how they go out piece by piece. What a piece adds to a reply is said of
//! whatever was printed before it, also where the sink fails in the middle.
#![tactic(auto)]

mod answered;
mod entry_text;
mod listing;
mod pending;
mod saying;
mod shown;
mod verdict;

pub use answered::Answered;
pub use entry_text::counted;
pub use listing::{Listed, say_listing};
pub use pending::Pending;
pub use saying::{say_rest, say_value};
pub use shown::{Part, Shown, part_of};
pub use verdict::Verdict;

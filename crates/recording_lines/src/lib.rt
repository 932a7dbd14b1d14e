// The lines that a session prints: of a message, and of an offer. The rules are in specs/.
#![tactic(auto)]

mod message;
mod offer;

pub use message::print_message;
pub use offer::{print_block, print_board, print_list};

// The commands of a play, document 01, "The player": what three bytes say, and the bytes that are
// not taken yet.
#![tactic(auto)]

mod command;
mod kept;

pub use command::Command;
pub use kept::keep;

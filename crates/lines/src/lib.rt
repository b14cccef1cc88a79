// The lines that the player prints, document 01, "The player", as bytes in a lent buffer.
#![tactic(auto)]

mod line;
mod text;

pub use line::Line;

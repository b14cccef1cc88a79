// The player: document 01, "The player". What each command prints and does to the state.
#![tactic(auto)]

mod run;
mod session;

pub use session::{Progress, Session};

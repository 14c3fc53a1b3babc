//! The top call: what the program does with its words, its files and its output.
#![tactic(auto)]

mod check;
mod finished;
mod load;
mod making;
mod making_words;
mod outputs;
mod playing;
mod reason;
mod run;
mod sources;
mod status;
mod storing;
mod top;
mod words;

pub use finished::{Bench, Finished};
pub use status::{Role, Status, Why};
pub use top::pfr;

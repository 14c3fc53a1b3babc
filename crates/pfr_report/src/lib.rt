//! What the platform notes, what is found of its banks, and the lines that report both.
#![tactic(auto)]

mod cause;
mod cause_words;
mod lines;
mod note;
mod notes;
mod verdict;
mod verdict_lines;

pub use cause::{Cause, manifest_cause};
pub use cause_words::{bank_word, rule_word};
pub use lines::write_note;
pub use note::{LockWhy, Note, ProvisionWhy, Refusal, What};
pub use notes::Notes;
pub use verdict::{BankVerdict, Standing};
pub use verdict_lines::{write_floor, write_verdict};

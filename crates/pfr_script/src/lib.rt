//! Scripts: the events of a run and the failures that are armed in it, read from a text.
#![tactic(auto)]

mod arm;
mod arm_counts;
mod event;
mod frame;
mod hex_word;
mod item;
mod items;
mod line;
mod line_word;
mod number;
mod reading;
mod script;
mod script_fail;
mod script_why;
#[cfg(test)]
mod tests;
mod words;

pub use arm::{Arm, ArmWhat};
pub use event::{Event, Intent};
pub use frame::Frame;
pub use item::Item;
pub use items::Items;
pub use reading::parse;
pub use script::Script;
pub use script_fail::ScriptFail;
pub use script_why::ScriptWhy;

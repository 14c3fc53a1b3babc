//! The platform: its devices, and what it does with them at each event.
#![tactic(auto)]

mod arming;
mod board;
mod bringing;
mod bus;
mod cancelling;
mod copies;
mod desk;
mod doing;
mod inner;
mod jobs;
mod judging;
mod platform;
mod preparing;
mod provisioning;
mod refusing;
mod renewal;
mod renewing;
mod resuming;
mod seat;
mod sides;
mod stage;
mod turning;
mod updating;
mod verdicts;
mod watching;
mod working;

pub use pfr_story::Line;
pub use platform::{Parts, Platform};
pub use verdicts::verdict;

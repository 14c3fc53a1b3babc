//! What a platform does, as moves of its devices and notes, and the laws of plans of such moves.
#![tactic(auto)]

mod contents;
mod line;
mod recoverable;
mod stop;
mod watches;

pub use contents::whole_images;
pub use line::Line;
pub use recoverable::safe_plans;
pub use stop::Stop;
pub use watches::Watches;

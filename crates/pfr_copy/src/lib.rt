//! A capsule is applied to a bank's active image, or copied to its recovery area, page by page.
#![tactic(auto)]

mod applying;
mod contents;
mod copying;
mod heeding;
mod marks;
mod pages;
mod recovering;
mod taking;

pub use applying::apply;
pub use marks::Marks;
pub use recovering::copy_recovery;

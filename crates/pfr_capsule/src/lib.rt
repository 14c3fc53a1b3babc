//! Update capsules: a bank's new firmware, signed, and the pages that it brings.
#![tactic(auto)]

mod capsule;
mod fail;
mod judging;
mod maps;
mod page_bytes;
mod page_header;
mod pages;
mod signed;
mod span;

pub use capsule::Capsule;
pub use fail::CapsuleFail;
pub use pages::{Page, Pages};
pub use span::Span;

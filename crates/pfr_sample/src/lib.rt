//! The small platform, which tests make and run: its description and its firmware.
#![tactic(auto)]

#[cfg(test)]
mod capsule_tests;
mod small;

pub use small::{small_image, small_platform, small_text};

//! The manifest of a bank: its regions with their hashes, and its SMBus rules.
#![tactic(auto)]

mod entry;
mod fail;
#[cfg(test)]
mod first_broken;
mod halving;
mod manifest;
mod reading;
mod region;
mod region_table;
mod regions;
mod rule;
mod rules;
mod steps;
mod stretch;
#[cfg(test)]
mod tests;

pub use fail::ManifestFail;
pub use manifest::Manifest;
pub use region::{Region, RegionHash};
pub use region_table::RegionTable;
pub use regions::Regions;
pub use rule::Rule;
pub use rules::Rules;
pub use steps::Steps;
pub use stretch::Stretch;

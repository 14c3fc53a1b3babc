//! The store's fuses: what the platform is provisioned with, the floors, and the cancelled keys.
#![tactic(auto)]

mod clearing;
mod filling;
mod fuse_fail;
mod fuse_rows;
mod fuses;
mod profile;
mod provisioning;
mod root_slot;
mod slots;
mod store_floor;

pub use fuse_fail::FuseFail;
pub use fuses::{Fuses, load};
pub use provisioning::provision;
pub use root_slot::RootSlot;
pub use store_floor::floor_in_store;

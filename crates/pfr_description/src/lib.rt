//! What a platform and its firmware are, as a description says it, and how one is read.
#![tactic(auto)]

mod bank_description;
mod bank_table;
mod description;
mod entries;
mod fail;
mod field;
mod form;
mod identity;
mod keys;
mod lists;
mod read;
mod reading;
mod region;
mod smbus;
mod tables;

pub use bank_description::BankDescription;
pub use description::Description;
pub use fail::{DescFail, DescWhy, FitPart};
pub use field::Field;
pub use form::Form;
pub use identity::Identity;
pub use keys::{KeyDescription, PublicKey};
pub use read::read_description;
pub use region::{HashKind, PageUse, RegionDescription};
pub use smbus::SmbusDescription;

//! Makes the images of a platform from its description.
#![tactic(auto)]

mod bank_image;
mod block;
mod capsule;
mod certificate;
mod engine_rows;
mod form1;
mod form2;
mod manifest;
mod marks;
mod pages;
mod place;
mod region;
mod regions;
mod store;
mod writing;

pub use bank_image::{Made, make_bank};
pub use certificate::{MadeCert, make_cert};
pub use pfr_description::{
    BankDescription, DescFail, DescWhy, Description, Field, FitPart, Form, HashKind,
    KeyDescription, PageUse, PublicKey, RegionDescription, SmbusDescription, read_description,
};
pub use store::make_store;

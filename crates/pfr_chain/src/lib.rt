//! Signature blocks of contents in a flash, and the engines that say which signatures are right.
#![tactic(auto)]

mod block0;
mod both_hashers;
mod fail;
mod form;
mod form1;
mod form2;
mod hashing;
mod judging;
mod public_key;
mod signature;
mod types;

pub use fail::ChainFail;
pub use hashing::{digest256_at, digest384_at};
pub use judging::{Chain, content_type, verify};
pub use pfr_engine::{Ask, Curve, Digest, Engine, EngineFail, EngineWhy, ListEngine, curve_from};
pub use signature::digest_on;
pub use types::type_number;

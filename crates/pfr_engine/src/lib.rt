//! Engines, which say which signatures are right, and one that is read from a text.
#![tactic(auto)]

mod engine;
mod engine_fail;
mod engine_why;
mod list_engine;
mod long_row;
mod reading;
mod row;
mod short_row;
mod words;

pub use engine::{Ask, Curve, Digest, Engine, curve_from};
pub use engine_fail::EngineFail;
pub use engine_why::EngineWhy;
pub use list_engine::ListEngine;

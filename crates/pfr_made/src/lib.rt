//! What is made of a description: images, capsules, stores, certificates and engine rows, as functions of whole lists, with the laws
//! that what is made is trusted and good.
#![tactic(auto)]

mod page_map;

pub use page_map::PageMap;

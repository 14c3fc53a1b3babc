// What the tests run on: words, and files in memory.
use pfr_shelf::MemShelf;
use std::alloc::{AllocError, Global};
use std::test::Fail;

pub const RUN: &[&str] = &["run", "bmc", "pch", "nv", "engine", "script"];

pub fn word_list(alloc: Global, words: &[&str]) -> Result<Vec<String>, AllocError> {
    let mut list = Vec::new(alloc);
    for word in words {
        list.push(String::from_str(alloc, word)?)?;
    }
    Ok(list)
}

// Two blank banks, a blank store, an engine without rows, and a script.
pub fn blank_shelf(alloc: Global, script: &str) -> Result<MemShelf, Fail> {
    let mut shelf = MemShelf::new(alloc);
    let bank = vec![in alloc; 0xff; 65_536]?;
    let store = vec![in alloc; 0xff; 32_768]?;
    shelf.put("bmc", bank.as_slice())?;
    shelf.put("pch", bank.as_slice())?;
    shelf.put("nv", store.as_slice())?;
    shelf.put("engine", b"")?;
    shelf.put("script", script.as_bytes())?;
    Ok(shelf)
}

//! The program: the host's files and its standard output, handed to the top call.
#![tactic(auto)]

#[cfg(test)]
mod calls_tests;
#[cfg(test)]
mod fixtures;
#[cfg(test)]
mod operations_tests;

use pfr::{Status, pfr};
use pfr_shelf::{FileShelf, OutSink};
use std::alloc::AllocError;
use std::env;
use std::io::ErrorKind;
use std::process::ExitCode;

// The words after the program's name; none where one of them is not UTF-8.
fn words_of(rt: &HostRuntime) -> Result<Vec<String>, AllocError> {
    match env::args(rt) {
        Ok(args) => args.skip(1).collect(rt.alloc()),
        Err(error) => match error.kind() {
            ErrorKind::OutOfMemory => Err(AllocError),
            _ => Ok(Vec::new(rt.alloc())),
        },
    }
}

fn main(rt: HostRuntime) -> Result<ExitCode, AllocError> {
    let mut out = OutSink::new(rt.clone()?);
    let Ok(words) = words_of(&rt) else {
        let _ = Status::NoMemory.tell(&mut out);
        return Ok(ExitCode::from(Status::NoMemory.code()));
    };
    let mut shelf = FileShelf::new(rt.clone()?);
    let finished = pfr(rt.alloc(), &words, &mut shelf, &mut out);
    Ok(ExitCode::from(finished.status.code()))
}

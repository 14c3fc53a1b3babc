// What a command leaves.

use crate::status::Status;
use pfr_chain::ListEngine;
use pfr_flash::MemFlash;
use pfr_report::Notes;
use pfr_script::Script;

/// The devices of a run, its notes, the engine that judged, and the script whose items were done.
#[derive(Drop)]
pub struct Bench {
    pub bmc: MemFlash,
    pub pch: MemFlash,
    pub nv: MemFlash,
    pub notes: Notes,
    pub engine: ListEngine,
    pub script: Script,
}

/// How a command ended, and its bench from the moment the platform was made.
#[derive(Drop)]
pub struct Finished {
    pub status: Status,
    pub bench: Option<Bench>,
}

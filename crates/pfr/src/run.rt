// The command `run`.
ghost use Rattle.std.specs.Prelude.{◌≡◌, ◌≤◌, IfSome};
ghost use Rattle.pfr_report.specs.Texts.{report, AllText};
ghost use Rattle.pfr_shelf.specs.Pieces.{Writes};
ghost use Rattle.pfr.specs.Benches.{HasRun};
ghost use Rattle.pfr.specs.Faults.{IsFaultless};
ghost use Rattle.pfr.specs.Runs.{Delivers, Reports, RunAnswers, RunOutput, outside};

use crate::finished::{Bench, Finished};
use crate::load::load_files;
use crate::playing::{Played, attempt};
use crate::status::Status;
use crate::storing::store_images;
use crate::words::RunRequest;
use pfr_report::{Note, write_note};
use pfr_shelf::{Shelf, Sink, SinkFail};
use std::alloc::Global;

// Writes the report of these notes.
fn write_report<K: Sink>(notes: &[Note], out: &mut K) -> Result<(), SinkFail>
    requires { AllText notes.now }
    ensures { Writes K.tells K.written K.faults out.old out.new (report notes.now) result }
{
    for note in notes {
        write_note(note, out)?;
    }
    Ok(())
}

// Writes the report, and then stores the images.
fn deliver<S: Shelf, K: Sink>(
    request: &RunRequest<'_>,
    bench: &Bench,
    shelf: &mut S,
    out: &mut K,
) -> Status
    requires { AllText bench.now.notes.list }
    ensures files { Delivers S.tells (outside S.files S.faults S.failed K.written K.faults shelf.old out.old)
        (outside S.files S.faults S.failed K.written K.faults shelf.new out.new) request.now bench.now result }
    ensures output { Reports K.tells (outside S.files S.faults S.failed K.written K.faults shelf.old out.old)
        (outside S.files S.faults S.failed K.written K.faults shelf.new out.new) (report bench.now.notes.list) result }
    ensures shelf_later { S.faults shelf.old ≤ S.faults shelf.new }
    ensures sink_later { K.faults out.old ≤ K.faults out.new }
    ensures faultless { IsFaultless result (S.faults shelf.old) (S.faults shelf.new) }
{
    if write_report(bench.notes.as_slice(), out).is_err() {
        return Status::WriteFault;
    }
    match store_images(request, bench, shelf) {
        Ok(()) => Status::Done,
        Err(status) => status,
    }
}

/// Loads the files, does the items, writes the report and stores the images.
pub fn run<S: Shelf, K: Sink>(
    alloc: Global,
    request: &RunRequest<'_>,
    shelf: &mut S,
    out: &mut K,
) -> Finished
    ensures answers { RunAnswers S.tells (outside S.files S.faults S.failed K.written K.faults shelf.old out.old)
        (outside S.files S.faults S.failed K.written K.faults shelf.new out.new) request.now result.bench result.status }
    ensures bench { IfSome result.bench HasRun }
    ensures output { RunOutput K.tells (outside S.files S.faults S.failed K.written K.faults shelf.old out.old)
        (outside S.files S.faults S.failed K.written K.faults shelf.new out.new) result.bench result.status }
    ensures shelf_later { S.faults shelf.old ≤ S.faults shelf.new }
    ensures sink_later { K.faults out.old ≤ K.faults out.new }
    ensures faultless { IsFaultless result.status (S.faults shelf.old) (S.faults shelf.new) }
{
    let loaded = match load_files(alloc, shelf, request) {
        Ok(loaded) => loaded,
        Err(status) => {
            return Finished {
                status,
                bench: None,
            };
        }
    };
    match attempt(alloc, request.wear, loaded) {
        Ok(Played::Whole(bench)) => {
            let status = deliver(request, &bench, shelf, out);
            Finished {
                status,
                bench: Some(bench),
            }
        }
        Ok(Played::Part(bench)) => Finished {
            status: Status::NoMemory,
            bench: Some(bench),
        },
        Err(_) => Finished {
            status: Status::NoMemory,
            bench: None,
        },
    }
}

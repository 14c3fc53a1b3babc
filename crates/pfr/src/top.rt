// The top call.
ghost use Rattle.std.specs.Prelude.{◌≡◌, ◌≤◌, true, Some, None, IfSome};
ghost use Rattle.pfr_report.specs.Texts.{AllText};
ghost use Rattle.pfr_flash.specs.FlashState.{Rose};
ghost use Rattle.pfr.specs.Benches.{HasRun};
ghost use Rattle.pfr.specs.Checks.{CheckAnswers};
ghost use Rattle.pfr.specs.Faults.{IsFaultless};
ghost use Rattle.pfr.specs.Headline.{CountsNeverFall, PowerOnsReleaseIn, RecoversThroughout, RunsWithoutJobs};
ghost use Rattle.pfr.specs.Judging.{Keeps, Breaks, verdict};
ghost use Rattle.pfr.specs.Promises.{HasReleasedSpans, ReleasesTrustedBanks, LocksWithCause, KeepsEventPromises, KeepsChanges, KeepsFuses, StaysProvisioned};
ghost use Rattle.pfr.specs.Makes.{KeepsAllBut, MakingAnswers};
ghost use Rattle.pfr.specs.Making.{cert_names, cert_rows, cert_stores, make_names, make_rows, make_stores, provision_names, provision_rows, provision_stores};
ghost use Rattle.pfr.specs.Request.{CertRequest, CheckRequest, MakeRequest, ProvisionRequest, RunRequest};
ghost use Rattle.pfr.specs.Runs.{RunAnswers, outside};
ghost use Rattle.pfr.specs.ScriptsFaults.{CountsFaults, HasScriptsFaults, RunsCalm, StaysUndisturbed};
ghost use Rattle.pfr.specs.Top.{Got, IsOrNoMemory, Output, StoresNothing, asked, rows_of, stored_names};
ghost use Rattle.pfr.specs.Worth.{MakesWorthy};
ghost use Rattle.pfr.specs.declared.words.Command.{Command};
ghost use Rattle.pfr.specs.declared.words.Command.TheVariants.{Cert, Check, Make, Provision, Run};
ghost use Rattle.pfr.specs.declared.status.Status.{Status};

use crate::check::check;
use crate::finished::Finished;
use crate::making::{cert, make, provision};
use crate::run::run;
use crate::status::Status;
use crate::words::{Command, read_words};
use pfr_shelf::{Shelf, Sink};
use std::alloc::Global;

// A command that made no platform.
fn without_bench(status: Status) -> Finished
    ensures { result ≡ record { status = status; bench = None } }
{
    Finished {
        status,
        bench: None,
    }
}

// Does the command, without the line of its status.
fn serve<S: Shelf, K: Sink>(
    alloc: Global,
    words: &Vec<String>,
    shelf: &mut S,
    out: &mut K,
) -> Finished
    ensures usage { result.status ≡ Status.Usage → asked words.now ≡ None }
    ensures no_command { asked words.now ≡ None → IsOrNoMemory Status.Usage result.status }
    ensures unused { asked words.now ≡ None → (result.bench ≡ None) × (S.tells ≡ true → S.files shelf.new ≡ S.files shelf.old) }
    ensures bench { IfSome result.bench HasRun }
    ensures run { (request : RunRequest) → asked words.now ≡ Some (Run request) →
        RunAnswers S.tells (outside S.files S.faults S.failed K.written K.faults shelf.old out.old)
        (outside S.files S.faults S.failed K.written K.faults shelf.new out.new) request result.bench result.status }
    ensures check { (request : CheckRequest) → asked words.now ≡ Some (Check request) →
        CheckAnswers S.tells (outside S.files S.faults S.failed K.written K.faults shelf.old out.old)
        (outside S.files S.faults S.failed K.written K.faults shelf.new out.new) request result.bench result.status }
    ensures make { (request : MakeRequest) → asked words.now ≡ Some (Make request) →
        MakingAnswers S.tells (outside S.files S.faults S.failed K.written K.faults shelf.old out.old)
        (outside S.files S.faults S.failed K.written K.faults shelf.new out.new) (make_rows request) (make_names request) (make_stores request) result.bench result.status }
    ensures furnish { (request : ProvisionRequest) → asked words.now ≡ Some (Provision request) →
        MakingAnswers S.tells (outside S.files S.faults S.failed K.written K.faults shelf.old out.old)
        (outside S.files S.faults S.failed K.written K.faults shelf.new out.new) (provision_rows request) (provision_names request) (provision_stores request) result.bench result.status }
    ensures certify { (request : CertRequest) → asked words.now ≡ Some (Cert request) →
        MakingAnswers S.tells (outside S.files S.faults S.failed K.written K.faults shelf.old out.old)
        (outside S.files S.faults S.failed K.written K.faults shelf.new out.new) (cert_rows request) (cert_names request) (cert_stores request) result.bench result.status }
    ensures output { Got S.tells K.tells (outside S.files S.faults S.failed K.written K.faults shelf.old out.old)
        (outside S.files S.faults S.failed K.written K.faults shelf.new out.new) (asked words.now) result.bench result.status }
    ensures shelf_later { S.faults shelf.old ≤ S.faults shelf.new }
    ensures sink_later { K.faults out.old ≤ K.faults out.new }
    ensures faultless { IsFaultless result.status (S.faults shelf.old) (S.faults shelf.new) }
{
    match read_words(alloc, words) {
        Err(_) => without_bench(Status::NoMemory),
        Ok(None) => without_bench(Status::Usage),
        Ok(Some(Command::Run(request))) => run(alloc, &request, shelf, out),
        Ok(Some(Command::Check(request))) => without_bench(check(alloc, &request, shelf, out)),
        Ok(Some(Command::Make(request))) => without_bench(make(alloc, &request, shelf)),
        Ok(Some(Command::Provision(request))) => without_bench(provision(alloc, &request, shelf)),
        Ok(Some(Command::Cert(request))) => without_bench(cert(alloc, &request, shelf)),
    }
}

/// Does what the words ask for, which are those of the command line without the program's name.
///
/// `run <bmc> <pch> <nv> <engine> <script> [<wear>]` loads the five files in this order, each judged before the
/// next is loaded, does the script's items in order on a platform of them, writes a line for each note, and then
/// stores the images of the BMC, the PCH and the controller's store under their names. The wear is 1 to 16, and 8
/// where it is not given: so often each page of a bank can be rewritten.
///
/// `check <bmc> <pch> <nv> <engine>` loads the four files in the same way, and writes the verdict of the BMC's bank
/// and then of the PCH's. It stores nothing.
///
/// `make <description> <prefix>` loads the description, then the image and the staged file that it names for the
/// BMC's bank, and then those for the PCH's, and makes both banks of them, the BMC's first. A bank for which no staged
/// file is named has nothing staged. It stores the banks as `<prefix>.bmc` and `<prefix>.pch`, their update capsules as
/// `<prefix>.bmc.capsule` and `<prefix>.pch.capsule`, and the engine's rows of the BMC and then of the PCH as
/// `<prefix>.engine`, in this order.
///
/// `provision <description> <nv>` loads the description, and stores a controller's store that is provisioned with its
/// root key and with both layouts.
///
/// `cert <description> <type> <id> <prefix>` loads the description, and stores a certificate that cancels the key of
/// this id for this type as `<prefix>.cert`, and then the engine's row of it as `<prefix>.cert.engine`. The type is
/// `bmc-manifest`, `bmc-capsule`, `pch-manifest` or `pch-capsule`, and the id is 0 to 255.
///
/// Each command that ends otherwise than with `Done` or `WriteFault` writes a line that says so. `make`, `provision`
/// and `cert` write nothing else.
pub fn pfr<S: Shelf, K: Sink>(
    alloc: Global,
    words: &Vec<String>,
    shelf: &mut S,
    out: &mut K,
) -> Finished
    // At every operation at which a bank stands released it is trusted, and none touches a byte that this rests on.
    ensures spans { IfSome result.bench HasReleasedSpans }
    ensures releases { IfSome result.bench ReleasesTrustedBanks }

    // A bank that could be recovered at one moment could be at each later one, which the counts of the notes follow; and
    // where it was held at a power-on, that released it, unless a device failed.
    ensures recoverable { IfSome result.bench RecoversThroughout }
    ensures powers { IfSome result.bench PowerOnsReleaseIn }
    ensures counted { IfSome result.bench CountsNeverFall }

    // No floor and no cancellation goes back, a provision stays, and so does what was raised and cancelled.
    ensures grows { IfSome result.bench KeepsFuses }
    ensures provision { IfSome result.bench StaysProvisioned }
    ensures changes { IfSome result.bench KeepsChanges }

    // Each lock has its cause, and each event kept all that an event promises.
    ensures locks { IfSome result.bench LocksWithCause }
    ensures events { IfSome result.bench KeepsEventPromises }

    // The script's failures and no other: each lock for a fault has its fault, devices fail as they are armed to, and a run
    // in which nothing is armed and no room spent is a function of its files.
    ensures faults { IfSome result.bench CountsFaults }
    ensures scripted { IfSome result.bench HasScriptsFaults }
    ensures undisturbed { IfSome result.bench StaysUndisturbed }
    ensures calm { IfSome result.bench RunsCalm }

    // While a bank stands released no job of it is open.
    ensures no_job { IfSome result.bench RunsWithoutJobs }

    // No note's cause is a failed device.
    ensures texts { IfSome result.bench (λ bench. AllText bench.notes.list) }

    // The words are no command: nothing is done. They are read with memory, so there may be none for that.
    ensures usage { result.status ≡ Status.Usage → asked words.now ≡ None }
    ensures no_command { asked words.now ≡ None → IsOrNoMemory Status.Usage result.status }
    ensures unused { asked words.now ≡ None → (result.bench ≡ None) × (S.tells ≡ true → S.files shelf.new ≡ S.files shelf.old) }

    // At each status that names no failed load or store none failed: the count of the shelf is as it was.
    ensures faultless { IsFaultless result.status (S.faults shelf.old) (S.faults shelf.new) }

    // Each other status of a run has its cause, its bench and its files, and so has each of the other commands. Where a
    // file could not be read or stored, the count of the shelf rose, and the last call that failed was the load or the
    // store of it.
    ensures run { (request : RunRequest) → asked words.now ≡ Some (Run request) →
        RunAnswers S.tells (outside S.files S.faults S.failed K.written K.faults shelf.old out.old)
        (outside S.files S.faults S.failed K.written K.faults shelf.new out.new) request result.bench result.status }
    ensures check { (request : CheckRequest) → asked words.now ≡ Some (Check request) →
        CheckAnswers S.tells (outside S.files S.faults S.failed K.written K.faults shelf.old out.old)
        (outside S.files S.faults S.failed K.written K.faults shelf.new out.new) request result.bench result.status }
    ensures make { (request : MakeRequest) → asked words.now ≡ Some (Make request) →
        MakingAnswers S.tells (outside S.files S.faults S.failed K.written K.faults shelf.old out.old)
        (outside S.files S.faults S.failed K.written K.faults shelf.new out.new) (make_rows request) (make_names request) (make_stores request) result.bench result.status }
    ensures furnish { (request : ProvisionRequest) → asked words.now ≡ Some (Provision request) →
        MakingAnswers S.tells (outside S.files S.faults S.failed K.written K.faults shelf.old out.old)
        (outside S.files S.faults S.failed K.written K.faults shelf.new out.new) (provision_rows request) (provision_names request) (provision_stores request) result.bench result.status }
    ensures certify { (request : CertRequest) → asked words.now ≡ Some (Cert request) →
        MakingAnswers S.tells (outside S.files S.faults S.failed K.written K.faults shelf.old out.old)
        (outside S.files S.faults S.failed K.written K.faults shelf.new out.new) (cert_rows request) (cert_names request) (cert_stores request) result.bench result.status }

    // What `make` stores of both banks is trusted and good for every engine that accepts their rows.
    ensures worth { (request : MakeRequest) → asked words.now ≡ Some (Make request) → S.tells ≡ true → result.status ≡ Status.Done →
        MakesWorthy (S.files shelf.old) request }

    // Every file but those that a command stores stays, whatever the status: of a run these are its three images. These
    // stay too, where nothing is to be stored.
    ensures spares { (command : Command) → asked words.now ≡ Some command → S.tells ≡ true →
        KeepsAllBut (stored_names command) (S.files shelf.old) (S.files shelf.new) }
    ensures stays { StoresNothing (asked words.now) result.status → S.tells ≡ true → S.files shelf.new ≡ S.files shelf.old }

    // The first file that breaks a rule is told, where no call of the shelf failed.
    ensures breach { (command : Command) (wanted : Status) → asked words.now ≡ Some command → S.tells ≡ true →
        verdict (rows_of command (S.files shelf.old)) ≡ Breaks wanted →
        ¬ Rose (S.faults shelf.old) (S.faults shelf.new) → IsOrNoMemory wanted result.status }

    // Where all files keep their rules and nothing failed, the command is done.
    ensures complete { (command : Command) → asked words.now ≡ Some command → S.tells ≡ true →
        verdict (rows_of command (S.files shelf.old)) ≡ Keeps →
        ¬ Rose (S.faults shelf.old) (S.faults shelf.new) → ¬ Rose (K.faults out.old) (K.faults out.new) →
        IsOrNoMemory Status.Done result.status }

    // What the sink got: at Done the report of a run, or the verdicts of a check by what its files hold, and nothing else;
    // of the other commands nothing.
    ensures output { Output S.tells K.tells (outside S.files S.faults S.failed K.written K.faults shelf.old out.old)
        (outside S.files S.faults S.failed K.written K.faults shelf.new out.new) (asked words.now) result.bench result.status }
{
    let finished = serve(alloc, words, shelf, out);
    let _ = finished.status.tell(out);
    finished
}

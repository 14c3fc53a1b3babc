// The lines of a bank's verdict.
ghost use Rattle.std.specs.Prelude.{◌≡◌, ◌++◌, [], codes, decimal, IfErr};
ghost use Rattle.pfr_flash.specs.Answer.{IsFound};
ghost use Rattle.pfr_auth.specs.Answer.{active_failure};
ghost use Rattle.pfr_shelf.specs.Pieces.{Writes};
ghost use Rattle.pfr_capsule.specs.Answer.{capsule_failure};
ghost use Rattle.pfr_report.specs.Words.{active_text, capsule_text, rule_word};
ghost use Rattle.pfr_report.specs.Verdicts.{area_text, area_word, image_text, job_word, judged_lines, line, verdict_text, yes_or_no, HasCauses};

use crate::cause::{active_cause, capsule_cause};
use crate::cause_words::{bank_word, kind_word, rule_word};
use crate::verdict::{BankVerdict, Standing};
use itoa::Buffer;
use pfr_auth::{ActiveFail, Area};
use pfr_capsule::CapsuleFail;
use pfr_flash::Bank;
use pfr_jobs::OpenJob;
use pfr_shelf::{Sink, SinkFail, write_pieces};

fn job_word(job: OpenJob) -> &'static [u8]
    ensures { result.now ≡ job_word job }
{
    match job {
        OpenJob::None => b"none",
        OpenJob::Bad => b"bad",
        OpenJob::Job { kind, .. } => kind_word(kind),
    }
}

fn area_word(area: Area) -> &'static [u8]
    ensures { result.now ≡ area_word area }
{
    match area {
        Area::Recovery => b"recovery",
        Area::Staging => b"staging",
    }
}

fn yes_or_no(answer: bool) -> &'static [u8]
    ensures { result.now ≡ yes_or_no answer }
{
    if answer { b"yes" } else { b"no" }
}

// A line of words alone.
fn write_line<K: Sink>(
    bank: Bank,
    subject: &'static [u8],
    text: &'static [u8],
    out: &mut K,
) -> Result<(), SinkFail>
    ensures { Writes K.tells K.written K.faults out.old out.new (line bank subject.now text.now) result }
{
    write_pieces(out, &[bank_word(bank), b" ", subject, text, b"\n"])
}

// The line of a number.
fn write_number<K: Sink>(
    bank: Bank,
    subject: &'static [u8],
    number: u32,
    out: &mut K,
) -> Result<(), SinkFail>
    ensures { Writes K.tells K.written K.faults out.old out.new (line bank subject.now (decimal number)) result }
{
    let mut buffer = Buffer::new();
    let number = buffer.format(number).as_bytes();
    write_pieces(out, &[bank_word(bank), b" ", subject, number, b"\n"])
}

/// Writes the line of a bank's floor. At `Err` a prefix of it was written.
pub fn write_floor<K: Sink>(bank: Bank, floor: u32, out: &mut K) -> Result<(), SinkFail>
    ensures { Writes K.tells K.written K.faults out.old out.new (line bank (codes "floor ") (decimal floor)) result }
{
    write_number(bank, b"floor ", floor, out)
}

// The line of an active image that isn't trusted.
fn write_untrusted<K: Sink>(bank: Bank, why: ActiveFail, out: &mut K) -> Result<(), SinkFail>
    requires { IsFound active_failure why }
    ensures { Writes K.tells K.written K.faults out.old out.new (line bank (codes "active ") (codes "untrusted " ++ active_text why)) result }
{
    let cause = active_cause(why);
    let mut buffer = Buffer::new();
    let digits = cause.digits(&mut buffer);
    write_pieces(
        out,
        &[
            bank_word(bank),
            b" active untrusted ",
            cause.kind,
            cause.word,
            cause.colon(),
            digits,
            b"\n",
        ],
    )
}

// The line of the active image.
fn write_active<K: Sink>(
    bank: Bank,
    active: Result<u8, ActiveFail>,
    out: &mut K,
) -> Result<(), SinkFail>
    requires { IfErr active (IsFound active_failure) }
    ensures { Writes K.tells K.written K.faults out.old out.new (line bank (codes "active ") (image_text active)) result }
{
    match active {
        Ok(svn) => write_number(bank, b"active trusted svn ", u32::from(svn), out),
        Err(why) => write_untrusted(bank, why, out),
    }
}

// The line of an area whose capsule is good.
fn write_good<K: Sink>(bank: Bank, area: Area, svn: u8, out: &mut K) -> Result<(), SinkFail>
    ensures { Writes K.tells K.written K.faults out.old out.new (line bank (area_word area) (codes " " ++ (codes "good svn " ++ decimal svn))) result }
{
    let mut buffer = Buffer::new();
    let svn = buffer.format(svn).as_bytes();
    write_pieces(
        out,
        &[
            bank_word(bank),
            b" ",
            area_word(area),
            b" good svn ",
            svn,
            b"\n",
        ],
    )
}

// The line of an area whose capsule isn't good.
fn write_bad<K: Sink>(bank: Bank, area: Area, why: CapsuleFail, out: &mut K) -> Result<(), SinkFail>
    requires { IsFound capsule_failure why }
    ensures { Writes K.tells K.written K.faults out.old out.new (line bank (area_word area) (codes " " ++ (codes "bad " ++ capsule_text why))) result }
{
    let cause = capsule_cause(why);
    let mut buffer = Buffer::new();
    let digits = cause.digits(&mut buffer);
    write_pieces(
        out,
        &[
            bank_word(bank),
            b" ",
            area_word(area),
            b" bad ",
            cause.kind,
            cause.word,
            cause.colon(),
            digits,
            b"\n",
        ],
    )
}

// The line of an area that holds a capsule.
fn write_area<K: Sink>(
    bank: Bank,
    area: Area,
    found: Result<u8, CapsuleFail>,
    out: &mut K,
) -> Result<(), SinkFail>
    requires { IfErr found (IsFound capsule_failure) }
    ensures { Writes K.tells K.written K.faults out.old out.new (line bank (area_word area) (codes " " ++ area_text found)) result }
{
    match found {
        Ok(svn) => write_good(bank, area, svn, out),
        Err(why) => write_bad(bank, area, why, out),
    }
}

// The six lines of a bank whose images were judged.
fn write_judged<K: Sink>(bank: Bank, verdict: &BankVerdict, out: &mut K) -> Result<(), SinkFail>
    requires { HasCauses verdict.now }
    ensures { Writes K.tells K.written K.faults out.old out.new (judged_lines bank verdict.now) result }
{
    write_floor(bank, verdict.floor, out)?;
    write_line(bank, b"job ", job_word(verdict.job), out)?;
    write_active(bank, verdict.active, out)?;
    write_area(bank, Area::Recovery, verdict.recovery, out)?;
    write_area(bank, Area::Staging, verdict.staging, out)?;
    write_line(
        bank,
        b"same-manifest ",
        yes_or_no(verdict.same_manifest),
        out,
    )
}

/// Writes the lines of a bank's verdict: six of a bank that is ready, else one. At `Err` a prefix of them was written.
#[tactic(auto, unfolding(crate::specs::Verdicts::verdict_text))]
pub fn write_verdict<K: Sink>(
    bank: Bank,
    verdict: &BankVerdict,
    out: &mut K,
) -> Result<(), SinkFail>
    requires { HasCauses verdict.now }
    ensures { Writes K.tells K.written K.faults out.old out.new (verdict_text bank verdict.now) result }
{
    match verdict.standing {
        Standing::Unprovisioned => write_line(bank, b"unprovisioned", b"", out),
        Standing::SlotsSpent => write_line(bank, b"slots-spent", b"", out),
        Standing::LayoutBad(rule) => write_line(bank, b"layout ", rule_word(rule), out),
        Standing::Ready => write_judged(bank, verdict, out),
    }
}

// The line of a note.
ghost use Rattle.std.specs.Prelude.{None, ◌≡◌, ◌++◌, ℕ, codes, decimal};
ghost use Rattle.pfr_flash.specs.Answer.{IsFound};
ghost use Rattle.pfr_auth.specs.Answer.{active_failure};
ghost use Rattle.pfr_shelf.specs.Pieces.{Writes};
ghost use Rattle.pfr_capsule.specs.Answer.{capsule_failure};
ghost use Rattle.pfr_cert.specs.Answer.{cert_failure};
ghost use Rattle.pfr_fuses.specs.FuseMap.{IsSigning};
ghost use Rattle.pfr_report.specs.Words.{active_text, block_text, capsule_text, cert_text, kind_word, type_word, AreFound};
ghost use Rattle.pfr_report.specs.Texts.{bank_word, lock_word, note_text, refusal_text, update_word, HasLockText, HasRefusalText, HasText};
ghost use Rattle.pfr_report.specs.declared.note.LockWhy.TheVariants.{NoGoodImage};

use crate::cause::{active_cause, block_cause, capsule_cause};
use crate::cause_words::{
    bank_word, cert_kind, cert_word, kind_word, lock_word, lost_word, op_word, provision_word,
    smbus_word, stage_word, type_word,
};
use crate::note::{LockWhy, Note, Refusal, What};
use itoa::Buffer;
use pfr_auth::ActiveFail;
use pfr_capsule::CapsuleFail;
use pfr_cert::CertFail;
use pfr_filter::BlockCause;
use pfr_flash::{Bank, ContentType};
use pfr_shelf::{Sink, SinkFail, write_pieces};

// The line of words alone.
fn write_words<K: Sink>(
    item: u32,
    text: &'static [u8],
    word: &'static [u8],
    out: &mut K,
) -> Result<(), SinkFail>
    ensures { Writes K.tells K.written K.faults out.old out.new
        (decimal item ++ (codes " " ++ ((text.now ++ word.now) ++ codes "\n"))) result }
{
    let mut buffer = Buffer::new();
    let item = buffer.format(item).as_bytes();
    write_pieces(out, &[item, b" ", text, word, b"\n"])
}

// The line of a bank, with words alone behind its name.
fn write_bank<K: Sink>(
    item: u32,
    bank: Bank,
    text: &'static [u8],
    word: &'static [u8],
    out: &mut K,
) -> Result<(), SinkFail>
    ensures { Writes K.tells K.written K.faults out.old out.new
        (decimal item ++ (codes " " ++ ((bank_word bank ++ (text.now ++ word.now)) ++ codes "\n"))) result }
{
    let mut buffer = Buffer::new();
    let item = buffer.format(item).as_bytes();
    write_pieces(out, &[item, b" ", bank_word(bank), text, word, b"\n"])
}

// The line of a bank whose active image isn't trusted.
fn write_untrusted<K: Sink>(
    item: u32,
    bank: Bank,
    why: ActiveFail,
    out: &mut K,
) -> Result<(), SinkFail>
    requires { IsFound active_failure why }
    ensures { Writes K.tells K.written K.faults out.old out.new
        (decimal item ++ (codes " " ++ ((bank_word bank ++ (codes " untrusted " ++ active_text why)) ++ codes "\n"))) result }
{
    let mut item_buffer = Buffer::new();
    let item = item_buffer.format(item).as_bytes();
    let cause = active_cause(why);
    let mut buffer = Buffer::new();
    let digits = cause.digits(&mut buffer);
    write_pieces(
        out,
        &[
            item,
            b" ",
            bank_word(bank),
            b" untrusted ",
            cause.kind,
            cause.word,
            cause.colon(),
            digits,
            b"\n",
        ],
    )
}

// The line of a bank that is locked since neither image of it is good.
fn write_no_good_image<K: Sink>(
    item: u32,
    bank: Bank,
    active: ActiveFail,
    recovery: CapsuleFail,
    out: &mut K,
) -> Result<(), SinkFail>
    requires { AreFound active recovery }
    ensures { Writes K.tells K.written K.faults out.old out.new
        (decimal item ++ (codes " " ++ ((bank_word bank ++ (codes " locked " ++ lock_word (NoGoodImage active recovery))) ++ codes "\n"))) result }
{
    let mut item_buffer = Buffer::new();
    let item = item_buffer.format(item).as_bytes();
    let active = active_cause(active);
    let mut active_buffer = Buffer::new();
    let active_digits = active.digits(&mut active_buffer);
    let recovery = capsule_cause(recovery);
    let mut recovery_buffer = Buffer::new();
    let recovery_digits = recovery.digits(&mut recovery_buffer);
    write_pieces(
        out,
        &[
            item,
            b" ",
            bank_word(bank),
            b" locked no-good-image ",
            active.kind,
            active.word,
            active.colon(),
            active_digits,
            b" ",
            recovery.kind,
            recovery.word,
            recovery.colon(),
            recovery_digits,
            b"\n",
        ],
    )
}

// The line of a bank, with words and a number behind its name.
fn write_number<K: Sink>(
    item: u32,
    bank: Bank,
    text: &'static [u8],
    number: u8,
    out: &mut K,
) -> Result<(), SinkFail>
    ensures { Writes K.tells K.written K.faults out.old out.new
        (decimal item ++ (codes " " ++ ((bank_word bank ++ (text.now ++ decimal number)) ++ codes "\n"))) result }
{
    let mut item_buffer = Buffer::new();
    let item = item_buffer.format(item).as_bytes();
    let mut buffer = Buffer::new();
    let number = buffer.format(number).as_bytes();
    write_pieces(out, &[item, b" ", bank_word(bank), text, number, b"\n"])
}

// The line of a bank, with words and the cause of a capsule behind its name.
fn write_capsule_cause<K: Sink>(
    item: u32,
    bank: Bank,
    text: &'static [u8],
    why: CapsuleFail,
    out: &mut K,
) -> Result<(), SinkFail>
    requires { IsFound capsule_failure why }
    ensures { Writes K.tells K.written K.faults out.old out.new
        (decimal item ++ (codes " " ++ ((bank_word bank ++ (text.now ++ capsule_text why)) ++ codes "\n"))) result }
{
    let mut item_buffer = Buffer::new();
    let item = item_buffer.format(item).as_bytes();
    let cause = capsule_cause(why);
    let mut buffer = Buffer::new();
    let digits = cause.digits(&mut buffer);
    write_pieces(
        out,
        &[
            item,
            b" ",
            bank_word(bank),
            text,
            cause.kind,
            cause.word,
            cause.colon(),
            digits,
            b"\n",
        ],
    )
}

// The line of a bank that is locked.
fn write_locked<K: Sink>(item: u32, bank: Bank, why: LockWhy, out: &mut K) -> Result<(), SinkFail>
    requires { HasLockText why }
    ensures { Writes K.tells K.written K.faults out.old out.new
        (decimal item ++ (codes " " ++ ((bank_word bank ++ (codes " locked " ++ lock_word why)) ++ codes "\n"))) result }
{
    match why {
        LockWhy::NoGoodImage(active, recovery) => {
            write_no_good_image(item, bank, active, recovery, out)
        }
        LockWhy::NoRecovery(cause) => {
            write_capsule_cause(item, bank, b" locked no-recovery ", cause, out)
        }
        _ => write_bank(item, bank, b" locked ", lock_word(why), out),
    }
}

// The line of a bank whose update by a certificate is refused.
fn write_cert_refused<K: Sink>(
    item: u32,
    bank: Bank,
    why: CertFail,
    out: &mut K,
) -> Result<(), SinkFail>
    requires { IsFound cert_failure why }
    ensures { Writes K.tells K.written K.faults out.old out.new
        (decimal item ++ (codes " " ++ ((bank_word bank ++ (codes " refused " ++ cert_text why)) ++ codes "\n"))) result }
{
    let mut buffer = Buffer::new();
    let item = buffer.format(item).as_bytes();
    write_pieces(
        out,
        &[
            item,
            b" ",
            bank_word(bank),
            b" refused ",
            cert_kind(why),
            cert_word(why),
            b"\n",
        ],
    )
}

// The line of a key that was cancelled.
fn write_cancelled<K: Sink>(item: u32, ty: ContentType, id: u8, out: &mut K) -> Result<(), SinkFail>
    requires { IsSigning ty }
    ensures { Writes K.tells K.written K.faults out.old out.new
        (decimal item ++ (codes " " ++ ((codes "cancelled " ++ (type_word ty ++ (codes " " ++ decimal id))) ++ codes "\n"))) result }
{
    let mut item_buffer = Buffer::new();
    let item = item_buffer.format(item).as_bytes();
    let mut buffer = Buffer::new();
    let id = buffer.format(id).as_bytes();
    write_pieces(out, &[item, b" cancelled ", type_word(ty), b" ", id, b"\n"])
}

// The line of a bank whose update is refused.
fn write_refused<K: Sink>(item: u32, bank: Bank, why: Refusal, out: &mut K) -> Result<(), SinkFail>
    requires { HasRefusalText why }
    ensures { Writes K.tells K.written K.faults out.old out.new
        (decimal item ++ (codes " " ++ ((bank_word bank ++ (codes " refused " ++ refusal_text why)) ++ codes "\n"))) result }
{
    match why {
        Refusal::Capsule(cause) => write_capsule_cause(item, bank, b" refused ", cause, out),
        Refusal::Cert(cause) => write_cert_refused(item, bank, cause, out),
        Refusal::ManifestDiffers => write_bank(item, bank, b" refused ", b"manifest-differs", out),
        Refusal::JobsSpent => write_bank(item, bank, b" refused ", b"jobs-spent", out),
    }
}

// The line of a bank whose active image was updated.
fn write_updated<K: Sink>(
    item: u32,
    bank: Bank,
    dynamic: bool,
    svn: u8,
    out: &mut K,
) -> Result<(), SinkFail>
    ensures { Writes K.tells K.written K.faults out.old out.new
        (decimal item ++ (codes " " ++ ((bank_word bank ++ (codes " updated " ++ (update_word dynamic ++ (codes " svn " ++ decimal svn)))) ++ codes "\n"))) result }
{
    if dynamic {
        write_number(item, bank, b" updated full svn ", svn, out)
    } else {
        write_number(item, bank, b" updated active svn ", svn, out)
    }
}

// The line of a frame on a bank's SPI bus that is blocked.
fn write_blocked<K: Sink>(
    item: u32,
    bank: Bank,
    why: BlockCause,
    out: &mut K,
) -> Result<(), SinkFail>
    ensures { Writes K.tells K.written K.faults out.old out.new
        (decimal item ++ (codes " " ++ ((bank_word bank ++ (codes " blocked " ++ block_text why)) ++ codes "\n"))) result }
{
    let mut item_buffer = Buffer::new();
    let item = item_buffer.format(item).as_bytes();
    let cause = block_cause(why);
    let mut buffer = Buffer::new();
    let digits = cause.digits(&mut buffer);
    write_pieces(
        out,
        &[
            item,
            b" ",
            bank_word(bank),
            b" blocked ",
            cause.word,
            cause.colon(),
            digits,
            b"\n",
        ],
    )
}

/// Writes the line of a note. At `Err` a prefix of it was written.
#[tactic(auto, unfolding(crate::specs::Texts::note_text))]
pub fn write_note<K: Sink>(note: &Note, out: &mut K) -> Result<(), SinkFail>
    requires { HasText note.now.what }
    ensures { Writes K.tells K.written K.faults out.old out.new (note_text note.now) result }
{
    let item = note.item;
    match note.what {
        What::Power => write_words(item, b"power", b"", out),
        What::Held { bank, .. } => write_bank(item, bank, b" held", b"", out),
        What::Released { bank, svn, .. } => {
            write_number(item, bank, b" released svn ", svn, out)
        }
        What::Locked { bank, why, .. } => write_locked(item, bank, why, out),
        What::Lost { device, .. } => write_words(item, b"lost", lost_word(device), out),
        What::Untrusted { bank, why } => write_untrusted(item, bank, why, out),
        What::Resumed { bank, kind } => {
            write_bank(item, bank, b" resumed ", kind_word(kind), out)
        }
        What::Abandoned { bank } => write_bank(item, bank, b" job abandoned", b"", out),
        What::Restored { bank, level } => {
            write_number(item, bank, b" restored level ", level, out)
        }
        What::Updated { bank, dynamic, svn } => write_updated(item, bank, dynamic, svn, out),
        What::RecoveryUpdated { bank, svn } => {
            write_number(item, bank, b" recovery updated svn ", svn, out)
        }
        What::Cancelled { ty, id } => write_cancelled(item, ty, id, out),
        What::Refused { bank, why } => write_refused(item, bank, why, out),
        What::Expired { bank, level } => write_number(item, bank, b" watchdog ", level, out),
        What::Passed { bank, stage } => {
            write_bank(item, bank, b" passed ", stage_word(stage), out)
        }
        What::Booted { bank } => write_bank(item, bank, b" booted", b"", out),
        What::BusPassed { bank, ref op } => write_bank(item, bank, b" pass ", op_word(op), out),
        What::BusBlocked { bank, why } => write_blocked(item, bank, why, out),
        What::SmbusPassed { bank } => write_bank(item, bank, b" smbus pass", b"", out),
        What::SmbusBlocked { bank, why } => {
            write_bank(item, bank, b" smbus blocked ", smbus_word(why), out)
        }
        What::Provisioned => write_words(item, b"provisioned", b"", out),
        What::ProvisionRefused { why } => {
            write_words(item, b"provision refused ", provision_word(why), out)
        }
        What::Ignored => write_words(item, b"ignored", b"", out),
    }
}

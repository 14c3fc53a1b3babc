// The words of causes.
ghost use Rattle.std.specs.Prelude.{◌≡◌, None, Some};
ghost use Rattle.pfr_report.specs.Words.{block_word, cert_kind, cert_word, chain_word, kind_word, manifest_number, manifest_word, rule_word, smbus_word, type_word};
ghost use Rattle.pfr_chain.specs.Answer.{chain_failure};
ghost use Rattle.pfr_cert.specs.Answer.{cert_failure};
ghost use Rattle.pfr_flash.specs.Answer.{IsFound};
ghost use Rattle.pfr_fuses.specs.FuseMap.{IsSigning};
ghost use Rattle.pfr_report.specs.Texts.{bank_word, lock_word, lost_word, op_word, provision_word, stage_word, HasStageWord, HasWord};

use crate::note::{LockWhy, ProvisionWhy};
use pfr_cert::CertFail;
use pfr_chain::ChainFail;
use pfr_filter::{BlockCause, BusOp};
use pfr_flash::{Bank, ContentType, Device, LayoutRule};
use pfr_jobs::JobKind;
use pfr_manifest::ManifestFail;
use pfr_smbus::SmbusCause;
use pfr_watch::Stage;

// A cause's word: one row for each variant of its enum.
macro_rules! words {
    ($cause:expr; $kind:ident { $($variant:ident $(($field:tt))? => $word:literal,)+ }) => {
        match $cause {
            $($kind::$variant $(($field))? => $word,)+
        }
    };
}

/// The name of a bank, as lines spell it.
pub fn bank_word(bank: Bank) -> &'static [u8]
    ensures { result.now ≡ bank_word bank }
{
    match bank {
        Bank::Bmc => b"bmc",
        Bank::Pch => b"pch",
    }
}

/// The word of a rule of layouts.
pub fn rule_word(rule: LayoutRule) -> &'static [u8]
    ensures { result.now ≡ rule_word rule }
{
    match rule {
        LayoutRule::Align => b"align",
        LayoutRule::Outside => b"outside",
        LayoutRule::Overlap => b"overlap",
    }
}

/// The word of a lock that has no causes in the bank's images.
pub fn lock_word(why: LockWhy) -> &'static [u8]
    requires { HasWord why }
    ensures { result.now ≡ lock_word why }
{
    match why {
        LockWhy::Unprovisioned => b"unprovisioned",
        LockWhy::SlotsSpent => b"slots-spent",
        LockWhy::Layout(LayoutRule::Align) => b"layout align",
        LockWhy::Layout(LayoutRule::Outside) => b"layout outside",
        LockWhy::Layout(LayoutRule::Overlap) => b"layout overlap",
        LockWhy::FlashFault => b"flash-fault",
        LockWhy::StoreFault => b"store-fault",
        LockWhy::WatchdogSpent => b"watchdog-spent",
        LockWhy::NoGoodImage(_, _) | LockWhy::NoRecovery(_) => unreachable!(),
    }
}

/// The word of a provision's cause.
pub fn provision_word(why: ProvisionWhy) -> &'static [u8]
    ensures { result.now ≡ provision_word why }
{
    match why {
        ProvisionWhy::AlreadyProvisioned => b"already-provisioned",
        ProvisionWhy::LayoutBad(Bank::Bmc, LayoutRule::Align) => b"layout bmc align",
        ProvisionWhy::LayoutBad(Bank::Bmc, LayoutRule::Outside) => b"layout bmc outside",
        ProvisionWhy::LayoutBad(Bank::Bmc, LayoutRule::Overlap) => b"layout bmc overlap",
        ProvisionWhy::LayoutBad(Bank::Pch, LayoutRule::Align) => b"layout pch align",
        ProvisionWhy::LayoutBad(Bank::Pch, LayoutRule::Outside) => b"layout pch outside",
        ProvisionWhy::LayoutBad(Bank::Pch, LayoutRule::Overlap) => b"layout pch overlap",
        ProvisionWhy::SlotsSpent => b"slots-spent",
    }
}

/// The word behind `lost`, with a space before it; empty where no device lost the power.
pub fn lost_word(device: Option<Device>) -> &'static [u8]
    ensures { result.now ≡ lost_word device }
{
    match device {
        None => b"",
        Some(Device::Bmc) => b" bmc",
        Some(Device::Pch) => b" pch",
        Some(Device::Nv) => b" nv",
    }
}

/// The word of a stage of a boot behind which another one comes.
pub fn stage_word(stage: Stage) -> &'static [u8]
    requires { HasStageWord stage }
    ensures { result.now ≡ stage_word stage }
{
    match stage {
        Stage::Me => b"me",
        Stage::Acm => b"acm",
        Stage::Ibb => b"ibb",
        Stage::Bmc | Stage::Obb | Stage::Done => unreachable!(),
    }
}

/// The word of a kind of jobs.
pub fn kind_word(kind: JobKind) -> &'static [u8]
    ensures { result.now ≡ kind_word kind }
{
    match kind {
        JobKind::ActiveFromRecovery { .. } => b"active-from-recovery",
        JobKind::ActiveFromStaging { .. } => b"active-from-staging",
        JobKind::RecoveryFromStaging => b"recovery-from-staging",
    }
}

/// The word of a signing type.
pub fn type_word(ty: ContentType) -> &'static [u8]
    requires { IsSigning ty }
    ensures { result.now ≡ type_word ty }
{
    match ty {
        ContentType::PchManifest => b"pch-manifest",
        ContentType::PchCapsule => b"pch-capsule",
        ContentType::BmcManifest => b"bmc-manifest",
        ContentType::BmcCapsule => b"bmc-capsule",
        _ => unreachable!(),
    }
}

/// What is before the word of a certificate's cause.
pub fn cert_kind(cause: CertFail) -> &'static [u8]
    ensures { result.now ≡ cert_kind cause }
{
    match cause {
        CertFail::Chain(_) => b"chain:",
        _ => b"",
    }
}

/// The word of a certificate's cause, which is no failed device.
pub fn cert_word(cause: CertFail) -> &'static [u8]
    requires { IsFound cert_failure cause }
    ensures { result.now ≡ cert_word cause }
{
    match cause {
        CertFail::Chain(cause) => chain_word(cause),
        CertFail::Body => b"body",
        CertFail::KeyId => b"key-id",
        CertFail::OtherBank => b"other-bank",
        CertFail::KeyInUse => b"key-in-use",
        CertFail::AlreadyCancelled => b"already-cancelled",
        CertFail::Flash(_) => unreachable!(),
    }
}

/// The word of a chain's cause, which is no failed device.
pub fn chain_word(cause: ChainFail) -> &'static [u8]
    requires { chain_failure cause ≡ None }
    ensures { result.now ≡ chain_word cause }
{
    match cause {
        ChainFail::ShortBlock => b"short-block",
        ChainFail::Block0Magic => b"block0-magic",
        ChainFail::WrongType => b"type",
        ChainFail::BlockLength => b"block-length",
        ChainFail::Length => b"length",
        ChainFail::Digest256 => b"digest256",
        ChainFail::Digest384 => b"digest384",
        ChainFail::Block1Magic => b"block1-magic",
        ChainFail::RootEntry => b"root-entry",
        ChainFail::RootHash => b"root-hash",
        ChainFail::KeyEntry => b"key-entry",
        ChainFail::KeyId => b"key-id",
        ChainFail::Permission => b"permission",
        ChainFail::Cancelled => b"cancelled",
        ChainFail::KeySignature => b"key-signature",
        ChainFail::Block0Entry => b"block0-entry",
        ChainFail::Block0Signature => b"block0-signature",
        ChainFail::Flash(_) => unreachable!(),
    }
}

/// The word of a manifest's cause; empty where the device failed.
pub fn manifest_word(cause: ManifestFail) -> &'static [u8]
    ensures { result.now ≡ manifest_word cause }
{
    match cause {
        ManifestFail::Magic => b"magic",
        ManifestFail::Svn => b"svn",
        ManifestFail::Length => b"length",
        ManifestFail::EntryType(_) => b"entry-type",
        ManifestFail::TooMany => b"too-many",
        ManifestFail::HashInfo(_) => b"hash-info",
        ManifestFail::WritableHashed(_) => b"writable-hashed",
        ManifestFail::Align(_) => b"align",
        ManifestFail::Range(_) => b"range",
        ManifestFail::Order(_) => b"order",
        ManifestFail::Overlap(_) => b"overlap",
        ManifestFail::Tail => b"tail",
        ManifestFail::Flash(_) => b"",
    }
}

/// The place or the region's number that the cause names.
pub fn manifest_number(cause: ManifestFail) -> Option<u32>
    ensures { result ≡ manifest_number cause }
{
    match cause {
        ManifestFail::EntryType(number)
        | ManifestFail::HashInfo(number)
        | ManifestFail::WritableHashed(number)
        | ManifestFail::Align(number)
        | ManifestFail::Range(number)
        | ManifestFail::Order(number)
        | ManifestFail::Overlap(number) => Some(number),
        _ => None,
    }
}

/// The word of what a frame asks of a flash.
pub fn op_word(op: &BusOp) -> &'static [u8]
    ensures { result.now ≡ op_word op.now }
{
    match op {
        BusOp::Read => b"read",
        BusOp::Status => b"status",
        BusOp::Id => b"id",
        BusOp::WriteEnable | BusOp::WriteDisable => b"latch",
        BusOp::Program { .. } => b"program",
        BusOp::Erase { .. } => b"erase",
    }
}

/// The word of a cause for which a frame on an SPI bus is blocked.
pub fn block_word(cause: BlockCause) -> &'static [u8]
    ensures { result.now ≡ block_word cause }
{
    words!(cause; BlockCause {
        Opcode => b"opcode",
        ChipErase => b"chip-erase",
        ShortFrame => b"short-frame",
        Range => b"range",
        NotWritable(_) => b"not-writable",
        NoLatch => b"no-latch",
    })
}

/// The word of a cause for which a frame on an SMBus is blocked.
pub fn smbus_word(cause: SmbusCause) -> &'static [u8]
    ensures { result.now ≡ smbus_word cause }
{
    words!(cause; SmbusCause {
        ShortFrame => b"short-frame",
        BadAddress => b"bad-address",
        NoRule => b"no-rule",
        Command => b"command",
    })
}

// What the platform notes.

use pfr_auth::ActiveFail;
use pfr_capsule::CapsuleFail;
use pfr_cert::CertFail;
use pfr_filter::{BlockCause, BusOp};
use pfr_flash::{Bank, ContentType, Counts, Device, LayoutRule};
use pfr_jobs::JobKind;
use pfr_smbus::SmbusCause;
use pfr_watch::Stage;

/// Why a bank is locked.
#[derive(Clone, Copy, Debug, PartialEq, Eq)]
pub enum LockWhy {
    /// No slot of the store provisions the platform, and one is blank yet.
    Unprovisioned,
    /// No slot of the store provisions the platform, and none is blank.
    SlotsSpent,
    /// The layout that the store provisions for the bank breaks this rule.
    Layout(LayoutRule),
    /// The bank's own device failed while the bank was in work.
    FlashFault,
    /// The store failed while the bank was in work.
    StoreFault,
    /// The active image isn't trusted, and what is in the recovery area is no good image.
    NoGoodImage(ActiveFail, CapsuleFail),
    /// The watch over the bank's boot has expired as often as is counted.
    WatchdogSpent,
    /// The watch over the bank's boot has expired, and what is in the recovery area is no good image.
    NoRecovery(CapsuleFail),
}

/// Why a provision is refused.
#[derive(Clone, Copy, Debug, PartialEq, Eq)]
pub enum ProvisionWhy {
    /// The platform is provisioned already.
    AlreadyProvisioned,
    /// The layout for this bank breaks this rule.
    LayoutBad(Bank, LayoutRule),
    /// No slot of the store is blank.
    SlotsSpent,
}

/// Why an update is refused.
#[derive(Clone, Copy, Debug, PartialEq, Eq)]
pub enum Refusal {
    /// What is in the staging area is no good image.
    Capsule(CapsuleFail),
    /// What is in the staging area is no certificate for the bank, or its key can't be cancelled.
    Cert(CertFail),
    /// The image in the staging area has another manifest than the active one.
    ManifestDiffers,
    /// The bank's log has no room for another job.
    JobsSpent,
}

/// What happened. Counts are those of the operations done on each device up to that moment.
#[derive(Clone, Copy, Debug, PartialEq, Eq)]
pub enum What {
    /// The platform was powered on.
    Power,
    /// The bank was taken from its processor, which is kept in reset.
    Held {
        bank: Bank,
        counts: Counts,
    },
    /// The bank was given to its processor, with firmware of this security version number.
    Released {
        bank: Bank,
        svn: u8,
        counts: Counts,
    },
    /// The bank was locked: its processor stays in reset.
    Locked {
        bank: Bank,
        why: LockWhy,
        counts: Counts,
    },
    /// The platform's power was lost in a call of this device, or was taken by an event where there is none.
    /// Both banks are off.
    Lost {
        device: Option<Device>,
        counts: Counts,
    },
    /// The bank's active image isn't trusted.
    Untrusted {
        bank: Bank,
        why: ActiveFail,
    },
    /// A job of this kind that the bank's log had open goes on.
    Resumed {
        bank: Bank,
        kind: JobKind,
    },
    /// The job that the bank's log had open was given up: its capsule isn't there.
    Abandoned {
        bank: Bank,
    },
    /// The bank's active image was restored from the capsule in the recovery area, at this level of recovery, 1 to 3.
    Restored {
        bank: Bank,
        level: u8,
    },
    /// The bank's active image was updated from the capsule in the staging area, whose security version number this is:
    /// with all of its regions where `dynamic`, else with the static ones.
    Updated {
        bank: Bank,
        dynamic: bool,
        svn: u8,
    },
    /// The bank's recovery area was updated from the capsule in the staging area, whose security version number this is.
    RecoveryUpdated {
        bank: Bank,
        svn: u8,
    },
    /// The key of this id was cancelled: it signs no more of this type.
    Cancelled {
        ty: ContentType,
        id: u8,
    },
    /// An update of the bank was refused, and its images are as they were.
    Refused {
        bank: Bank,
        why: Refusal,
    },
    /// The watch over the bank's boot expired; this is the level of recovery, 1 to 4.
    Expired {
        bank: Bank,
        level: u8,
    },
    /// The bank's processor passed this stage of its boot, and another one follows.
    Passed {
        bank: Bank,
        stage: Stage,
    },
    /// The bank's processor passed the last stage of its boot.
    Booted {
        bank: Bank,
    },
    /// A frame on the bank's SPI bus passed, and asked this of its flash.
    BusPassed {
        bank: Bank,
        op: BusOp,
    },
    /// A frame on the bank's SPI bus was blocked, and its flash did nothing.
    BusBlocked {
        bank: Bank,
        why: BlockCause,
    },
    /// A frame on the bank's SMBus passed.
    SmbusPassed {
        bank: Bank,
    },
    /// A frame on the bank's SMBus was blocked.
    SmbusBlocked {
        bank: Bank,
        why: SmbusCause,
    },
    /// The platform was provisioned.
    Provisioned,
    /// The platform was not provisioned, and no slot was written.
    ProvisionRefused {
        why: ProvisionWhy,
    },
    /// The banks don't take the event as they stand.
    Ignored,
}

/// What happened in an item of the script; items are numbered from 1.
#[derive(Clone, Copy, Debug, PartialEq, Eq)]
pub struct Note {
    pub item: u32,
    pub what: What,
}

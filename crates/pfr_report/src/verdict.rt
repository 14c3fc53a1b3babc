// What is found of a bank.

use pfr_auth::ActiveFail;
use pfr_capsule::CapsuleFail;
use pfr_flash::LayoutRule;
use pfr_jobs::OpenJob;

/// Whether a bank's images can be judged.
#[derive(Clone, Copy, Debug, PartialEq, Eq)]
pub enum Standing {
    /// No slot of the store provisions the platform, and one is blank yet.
    Unprovisioned,
    /// No slot of the store provisions the platform, and none is blank.
    SlotsSpent,
    /// The layout that the store provisions for the bank breaks this rule.
    LayoutBad(LayoutRule),
    /// The store provisions the bank with a valid layout.
    Ready,
}

/// What is found of a bank and its images, without a change of any of them. Of a bank that isn't ready nothing else is
/// told: its floor is 0, no job is open, and each image has the cause of an area that is too short for a signature.
#[derive(Clone, Copy, Debug, PartialEq, Eq)]
pub struct BankVerdict {
    pub standing: Standing,
    /// The lowest security version number that the bank still takes.
    pub floor: u32,
    /// The job that the bank's log has open.
    pub job: OpenJob,
    /// The security version number of the active image, or why that isn't trusted.
    pub active: Result<u8, ActiveFail>,
    /// The security version number of the capsule in the recovery area, or why that isn't good.
    pub recovery: Result<u8, CapsuleFail>,
    /// The same of the staging area.
    pub staging: Result<u8, CapsuleFail>,
    /// Whether the active image is trusted, the staged capsule good, and both have the same manifest.
    pub same_manifest: bool,
}

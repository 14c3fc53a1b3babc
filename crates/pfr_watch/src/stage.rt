// The stages of a boot, and how long each may last.
ghost use Rattle.std.specs.Prelude.{◌≡◌};
ghost use Rattle.pfr_watch.specs.Stages.{first_stage, length_of, next_stage};

use pfr_flash::Bank;

/// A stage of a processor's boot that is waited for, or that the boot is done.
#[derive(Clone, Copy, Debug, PartialEq, Eq)]
pub enum Stage {
    Bmc,
    Me,
    Acm,
    Ibb,
    Obb,
    Done,
}

impl Stage {
    // The stage that a bank's boot begins with.
    pub(crate) fn first(bank: Bank) -> Stage
        ensures { result ≡ first_stage bank }
    {
        match bank {
            Bank::Bmc => Stage::Bmc,
            Bank::Pch => Stage::Me,
        }
    }

    // The stage behind this one.
    pub(crate) fn next(self) -> Stage
        ensures { result ≡ next_stage self }
    {
        match self {
            Stage::Bmc => Stage::Done,
            Stage::Me => Stage::Acm,
            Stage::Acm => Stage::Ibb,
            Stage::Ibb => Stage::Obb,
            Stage::Obb => Stage::Done,
            Stage::Done => Stage::Done,
        }
    }

    // How many ticks it may last.
    pub(crate) fn length(self) -> u32
        ensures { result ≡ length_of self }
    {
        match self {
            Stage::Bmc => 1500,
            Stage::Me => 500,
            Stage::Acm => 500,
            Stage::Ibb => 1000,
            Stage::Obb => 2000,
            Stage::Done => 0,
        }
    }
}

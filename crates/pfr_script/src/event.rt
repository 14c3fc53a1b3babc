// What happens to a platform.
ghost use Rattle.pfr_script.specs.Slots.{IsKnownSlot};

use crate::frame::Frame;
use pfr_flash::Bank;
use pfr_fuses::RootSlot;

/// What an update replaces.
#[derive(Clone, Copy, Debug, PartialEq, Eq)]
pub enum Intent {
    /// The active image, without what changes while it runs.
    Active,
    /// The whole active image.
    Full,
    /// The recovery area.
    Recovery,
    /// Nothing: a key is cancelled, by a certificate.
    Cert,
}

/// What happens to a platform.
#[derive(Drop)]
pub enum Event {
    /// The power comes on.
    Power,
    /// The power goes off.
    Off,
    /// So many ticks pass.
    Tick(u16),
    /// The boot of a bank passes its stage, or fails.
    Boot { bank: Bank, pass: bool },
    /// A frame on the SPI bus of a bank.
    Spi { bank: Bank, frame: Frame },
    /// A frame on the SMBus of a bank.
    Smbus { bank: Bank, frame: Frame },
    /// A bank is updated from its staged capsule.
    Update { bank: Bank, intent: Intent },
    /// The platform is provisioned.
    Provision(RootSlot),
}

impl Event {
    // What is provisioned is a slot.
    pub(crate) fn known(&self)
        ensures { IsKnownSlot self.now }
    {
        if let Event::Provision(slot) = self {
            slot.known();
        }
    }
}

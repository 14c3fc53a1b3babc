// How many cuts and faults each device has.
ghost use Rattle.std.specs.Prelude.{◌≡◌, ◌<◌, true};
ghost use Rattle.pfr_script.specs.Arms.{is_counted};
ghost use Rattle.pfr_script.specs.Counting.{count_of, raised, counted};

use crate::arm::ArmWhat;
use pfr_flash::Device;

/// How many cuts and faults each device has.
#[derive(Clone, Copy)]
pub struct ArmCounts {
    pub bmc: u32,
    pub pch: u32,
    pub nv: u32,
}

/// Whether it counts: a fault of a read does not.
pub fn is_counted(what: ArmWhat) -> bool
    ensures { result ≡ is_counted what }
{
    match what {
        ArmWhat::Cut | ArmWhat::Fault => true,
        ArmWhat::ReadFault => false,
    }
}

impl ArmCounts {
    /// The count of a device.
    pub fn count(&self, device: Device) -> u32
        ensures { result ≡ count_of self.now device }
    {
        match device {
            Device::Bmc => self.bmc,
            Device::Pch => self.pch,
            Device::Nv => self.nv,
        }
    }

    fn raise(&mut self, device: Device)
        requires { count_of self.old device < 256 }
        ensures { self.new ≡ raised self.old device }
    {
        match device {
            Device::Bmc => self.bmc += 1,
            Device::Pch => self.pch += 1,
            Device::Nv => self.nv += 1,
        }
    }

    /// Counts one more, unless it is a fault of a read.
    pub fn add(&mut self, device: Device, what: ArmWhat)
        requires { is_counted what ≡ true → count_of self.old device < 256 }
        ensures { self.new ≡ counted self.old device what }
    {
        if is_counted(what) {
            self.raise(device);
        }
    }
}

// How failures of the devices are armed.
ghost use Rattle.std.specs.Prelude.{◌≡◌, ◌<◌, ◌≤◌};
ghost use Rattle.pfr_story.specs.Run.{armed, takes_arm, with_arm};
ghost use Rattle.pfr_story.specs.World.{state_at};

use crate::inner::Inner;
use pfr_flash::{Device, Rigged, Tear};
use pfr_script::{Arm, ArmWhat};

// Arms a failure of a device.
pub fn arm_device<F: Rigged>(device: &mut F, arm: &Arm, tear: &Tear)
    requires some { 1 ≤ arm.now.nth }
    requires arms { takes_arm arm.now.what ≤ (F.device device.old).arms }
    ensures { F.device device.new ≡ with_arm arm.now.what arm.now.nth tear.now (F.device device.old) }
{
    match arm.what {
        ArmWhat::Cut => device.arm_cut(arm.nth, tear),
        ArmWhat::Fault => device.arm_fault(arm.nth, tear),
        ArmWhat::ReadFault => device.arm_read_fault(arm.nth),
    }
}

impl<F: Rigged> Inner<F> {
    /// Arms a failure of a device, with this tear where it is a cut or a fault. It is an item of its own.
    pub fn arm(&mut self, arm: &Arm, tear: &Tear)
        requires some { 1 ≤ arm.now.nth }
        requires arms { takes_arm arm.now.what ≤ (state_at arm.now.device self.old).arms }
        requires items { self.old.item < 67108863 }
        ensures { self.new ≡ armed arm.now tear.now self.old }
    {
        match arm.device {
            Device::Bmc => self.bmc.arm(arm, tear),
            Device::Pch => self.pch.arm(arm, tear),
            Device::Nv => arm_device(&mut self.board.nv, arm, tear),
        }
        self.board.item += 1;
    }
}

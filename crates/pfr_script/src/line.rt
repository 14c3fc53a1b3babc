// What a line says, apart from the lines before it.

use crate::arm::ArmWhat;
use crate::event::Event;
use pfr_flash::{Device, Tear};

/// What a line says, apart from the lines before it.
#[derive(Drop)]
pub enum Line {
    Happens(Event),
    /// The nth operation of a device from then on is to fail, and leave the tear, if any.
    Arms {
        device: Device,
        what: ArmWhat,
        nth: u32,
        tear: Option<Tear>,
    },
}

// Why work on the devices stopped.

use pfr_flash::{Device, FlashFail};

/// A failed call of a device, at which work stopped.
#[derive(Clone, Copy, Debug, PartialEq, Eq)]
pub struct Stop {
    pub device: Device,
    pub fail: FlashFail,
}

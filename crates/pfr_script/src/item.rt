// What one line of a script says.

use crate::arm::Arm;
use crate::event::Event;

/// What one line of a script says.
#[derive(Drop)]
pub enum Item {
    Event(Event),
    Arm(Arm),
}

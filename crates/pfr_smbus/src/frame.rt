// A frame on an SMBus.
ghost use Rattle.std.specs.Prelude.{◌≡◌, IfOk, Ok};
ghost use Rattle.pfr_smbus.specs.declared.frame.SmbusFrame.{SmbusFrame};
ghost use Rattle.pfr_smbus.specs.Frames.{IsFrameOf, judge_frame};

use crate::cause::SmbusCause;

/// A command that the bank's processor sends to the device at an address, 0 to 127, of one of its buses.
#[derive(Clone, Copy, Debug, PartialEq, Eq)]
pub struct SmbusFrame {
    pub bus: u8,
    pub address: u8,
    pub command: u8,
}

impl SmbusFrame {
    /// The frame that these bytes spell: bus, address, command. Bytes behind these, which are the command's data, aren't
    /// looked at.
    ///
    /// `ShortFrame`: there are fewer than three bytes. `BadAddress`: the address is over 127.
    #[tactic(auto, unfolding(crate::specs::Frames::judge_frame))]
    pub fn read(bytes: &[u8]) -> Result<SmbusFrame, SmbusCause>
        // What is read is what the bytes begin with.
        ensures ok { IfOk result (IsFrameOf bytes.now) }
        // What the bytes begin with is read.
        ensures only { (frame : SmbusFrame) → IsFrameOf bytes.now frame → result ≡ Ok frame }
        // Which cause it is: the first in order.
        ensures exact { result ≡ judge_frame bytes.now }
    {
        if bytes.len() < 3 {
            return Err(SmbusCause::ShortFrame);
        }
        if bytes[1] > 127 {
            return Err(SmbusCause::BadAddress);
        }
        Ok(SmbusFrame {
            bus: bytes[0],
            address: bytes[1],
            command: bytes[2],
        })
    }
}

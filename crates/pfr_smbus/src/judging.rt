// Whether rules allow a frame.
ghost use Rattle.std.specs.Prelude.{◌≡◌, Any, IfErr};
ghost use Rattle.std.specs.Result.{OkIff};
ghost use Rattle.pfr_smbus.specs.Frames.{Allows, Blocks, has_command, is_for, judge_allowed};

use crate::cause::SmbusCause;
use crate::frame::SmbusFrame;
use pfr_manifest::{Rule, Rules};

/// Whether the rule is for the frame's bus and address.
fn is_for(frame: &SmbusFrame, rule: &Rule) -> bool
    ensures { result ≡ is_for frame.now rule.now }
{
    rule.bus == frame.bus && rule.address == frame.address
}

/// Whether the rule has the command: its bit is set.
fn has_command(command: u8, rule: &Rule) -> bool
    ensures { result ≡ has_command command rule.now }
{
    (rule.commands[(command / 8) as usize] >> (command % 8)) & 1 == 1
}

/// Judges whether one of the rules that are for the frame's bus and address has its command.
///
/// `NoRule`: none is for its bus and address. `Command`: some are, and none of these has the command.
#[tactic(auto, unfolding(crate::specs::Frames::judge_allowed))]
pub fn allowed(rules: &Rules, frame: &SmbusFrame) -> Result<(), SmbusCause>
    // It is allowed exactly where one rule is for its bus and address and has its command.
    ensures ok { OkIff result (Any (Allows frame.now) rules.now) tt }
    // A cause tells what is so, and neither short-frame nor bad-address is told.
    ensures err { IfErr result (Blocks rules.now frame.now) }
    // Which cause it is: the first in order.
    ensures exact { result ≡ judge_allowed rules.now frame.now }
{
    let mut found = false;
    for k in 0..rules.len() {
        let rule = rules.get(k);
        if is_for(frame, rule) {
            if has_command(frame.command, rule) {
                return Ok(());
            }
            found = true;
        }
    }
    if !found {
        return Err(SmbusCause::NoRule);
    }
    Err(SmbusCause::Command)
}

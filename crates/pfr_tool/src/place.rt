// Whether banks have a bank's size, and a layout of a bank of that size.
ghost use Rattle.std.specs.Prelude.{◌≡◌, ◌↔◌, IsOk};
ghost use Rattle.pfr_description.specs.Banks.{bank_of};
ghost use Rattle.pfr_made.specs.Judge.{IsPlaced, judge_place};

use pfr_description::{DescWhy, Description, FitPart};
use pfr_flash::Bank;

const LEAST_SIZE: u32 = 65_536;

const GREATEST_SIZE: u32 = 67_108_864;

/// Whether a bank has a bank's size, and a layout of a bank of that size.
#[tactic(auto, unfolding(pfr_made::specs::Judge::judge_place))]
pub fn check_place(desc: &Description, bank: Bank) -> Result<(), DescWhy>
    ensures exact { result ≡ judge_place bank (bank_of desc.now bank) }
    ensures ok { IsOk result ↔ IsPlaced (bank_of desc.now bank) }
{
    let part = desc.bank(bank);
    if part.size % LEAST_SIZE != 0 || part.size < LEAST_SIZE || part.size > GREATEST_SIZE {
        return Err(DescWhy::Fit(bank, FitPart::Size));
    }
    match part.layout.judge(part.size) {
        Ok(()) => Ok(()),
        Err(rule) => Err(DescWhy::Layout(bank, rule)),
    }
}

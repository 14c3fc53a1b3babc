// What the store provisions the platform with.
ghost use Rattle.std.specs.Prelude.{◌≡◌, Some, IfOk};
ghost use Rattle.pfr_flash.specs.FlashState.{now, size_of};
ghost use Rattle.pfr_flash.specs.Reading.{EndsAt, failed_by};
ghost use Rattle.pfr_fuses.specs.FusesOf.{fuses_of};

use pfr_flash::{Flash, FlashFail};
use pfr_fuses::{FuseFail, Fuses, load};

/// What the store provisions the platform with, or why it doesn't.
pub fn read_fuses<F: Flash>(nv: &mut F) -> Result<Result<Fuses, FuseFail>, FlashFail>
    requires { size_of (F.device nv.old) ≡ 32768 }
    ensures found { IfOk result (λ found. found ≡ fuses_of (now (F.device nv.old))) }
    ensures ends { EndsAt (failed_by (λ fail. Some fail) result) (F.device nv.old) (F.device nv.new) }
{
    match load(nv) {
        Ok(fuses) => Ok(Ok(fuses)),
        Err(FuseFail::Flash(fail)) => Err(fail),
        Err(why) => Ok(Err(why)),
    }
}

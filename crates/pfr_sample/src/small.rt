// The small platform: the text of its description, and its image.
ghost use Rattle.std.specs.Prelude.{◌≡◌, vec_len, IfOk};

use pfr_tool::{Description, read_description};
use std::alloc::Global;
use std::test::Fail;

const SIZE: usize = 0x10_0000;

const FILLED_FROM: usize = 0x1_0000;

const FILLED_TO: usize = 0x2_2000;

const TOP: &str = r#"curve = 256
[root]
x = "111111111111111111111111111111111111111111111111111111111111111111111111111111111111111111111111"
y = "222222222222222222222222222222222222222222222222222222222222222222222222222222222222222222222222"
"#;

// The BMC's bank: a copied region that is static, one that is not, and one that is erased. The PCH's is like it.
const BMC: &str = r#"[bmc]
image = "bmc.image"
staged = "bmc.staged"
size = 1048576
svn = 3
bkc = 1
revision = "0100"
oem = "00000000000000000000000000000000"
manifest_at = 0
manifest_len = 8192
recovery_at = 262144
staging_at = 524288
area_len = 262144
[bmc.manifest_key]
id = 5
permissions = 15
x = "333333333333333333333333333333333333333333333333333333333333333333333333333333333333333333333333"
y = "444444444444444444444444444444444444444444444444444444444444444444444444444444444444444444444444"
[bmc.capsule_key]
id = 6
permissions = 15
x = "555555555555555555555555555555555555555555555555555555555555555555555555555555555555555555555555"
y = "666666666666666666666666666666666666666666666666666666666666666666666666666666666666666666666666"
[[bmc.regions]]
start = 65536
end = 131072
mask = 1
hash = "sha256"
pages = "copy"
[[bmc.regions]]
start = 131072
end = 139264
mask = 11
hash = "none"
pages = "copy"
[[bmc.regions]]
start = 139264
end = 163840
mask = 11
hash = "none"
pages = "erase"
[[bmc.smbus]]
bus = 1
rule = 0
address = 46
commands = "0000010001000000000000000000000000000000000000000000000000000000"
"#;

/// The text of the small platform's description, with a staged file for each bank.
pub fn small_text(alloc: Global) -> Result<String, Fail> {
    let pch = BMC.replace(alloc, "bmc", "pch")?;
    Ok(format!(in alloc; "{}{}{}", TOP, BMC, pch)?)
}

/// The small platform, as it is described.
pub fn small_platform(alloc: Global) -> Result<Description, Fail> {
    let text = small_text(alloc)?;
    Ok(read_description(alloc, text.as_bytes())?)
}

/// The firmware of either bank of the small platform: 1 MiB, of which the bytes from 0x10000 up to 0x22000 aren't 0xFF.
pub fn small_image(alloc: Global) -> Result<Vec<u8>, Fail>
    ensures { IfOk result (λ image. vec_len image ≡ 0x100000) }
{
    let mut image = vec![in alloc; 0xFF; FILLED_FROM]?;
    for at in FILLED_FROM..FILLED_TO {
        image.push((at % 251) as u8)?;
    }
    image.resize(SIZE, 0xFF)?;
    Ok(image)
}

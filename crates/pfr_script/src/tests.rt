// What some texts say.
ghost use Rattle.std.specs.Prelude.{◌<◌, length};

use crate::{Arm, ArmWhat, Item, ScriptFail, ScriptWhy, parse};
use pfr_flash::Device;
use std::alloc::Global;
use std::test::Fail;

// how many items a text has
fn count(alloc: Global, text: &[u8]) -> Result<u32, ScriptFail>
    requires { length text.now < 1000 }
{
    Ok(parse(alloc, text)?.items().len())
}

fn refused(line: u32, why: ScriptWhy) -> Result<u32, ScriptFail> {
    Err(ScriptFail::Text { line, why })
}

#[test]
fn items(rt: HostRuntime) -> Result<(), Fail> {
    let alloc = rt.alloc();
    assert_eq!(rt; count(alloc, b""), Ok(0));
    assert_eq!(rt; count(alloc, b"power"), Ok(1));
    assert_eq!(rt; count(alloc, b"# a day\n\npower\noff\n"), Ok(2));
    assert_eq!(rt;
        count(
            alloc,
            b"cut bmc 279 -\nfault nv 1 0aFF\nreadfault pch 4294967295"
        ),
        Ok(3)
    );
    assert_eq!(rt; count(alloc, b"spi bmc 0aFF\nsmbus pch 01\n"), Ok(2));
    assert_eq!(rt;
        count(alloc, b"tick 1\ntick 65535\nboot bmc pass\nboot pch fail"),
        Ok(4)
    );
    assert_eq!(rt;
        count(
            alloc,
            b"update bmc active\nupdate pch full\nupdate bmc recovery\nupdate pch cert"
        ),
        Ok(4)
    );
    Ok(())
}

#[test]
fn causes(rt: HostRuntime) -> Result<(), Fail> {
    let alloc = rt.alloc();
    assert_eq!(rt;
        count(alloc, b"power\n\njump\n"),
        refused(3, ScriptWhy::Word)
    );
    assert_eq!(rt; count(alloc, b"power\r\n"), refused(1, ScriptWhy::Word));
    assert_eq!(rt;
        count(alloc, b"cut bmc 01 xx\n"),
        refused(1, ScriptWhy::Number)
    );
    assert_eq!(rt;
        count(alloc, b"fault nv 1 06f\n"),
        refused(1, ScriptWhy::Hex)
    );
    assert_eq!(rt;
        count(alloc, b"off\nprovision 00\n"),
        refused(2, ScriptWhy::Length)
    );
    Ok(())
}

#[test]
fn causes_of_ticks_boots_and_updates(rt: HostRuntime) -> Result<(), Fail> {
    let alloc = rt.alloc();
    assert_eq!(rt; count(alloc, b"tick 0"), refused(1, ScriptWhy::Number));
    assert_eq!(rt; count(alloc, b"tick 01"), refused(1, ScriptWhy::Number));
    assert_eq!(rt; count(alloc, b"tick 65536"), refused(1, ScriptWhy::Number));
    assert_eq!(rt; count(alloc, b"tick"), refused(1, ScriptWhy::Word));
    assert_eq!(rt; count(alloc, b"boot nv pass"), refused(1, ScriptWhy::Word));
    assert_eq!(rt; count(alloc, b"boot bmc ok"), refused(1, ScriptWhy::Word));
    assert_eq!(rt; count(alloc, b"boot bmc"), refused(1, ScriptWhy::Word));
    assert_eq!(rt;
        count(alloc, b"update bmc staging"),
        refused(1, ScriptWhy::Word)
    );
    assert_eq!(rt;
        count(alloc, b"update bmc certificate"),
        refused(1, ScriptWhy::Word)
    );
    assert_eq!(rt;
        count(alloc, b"update nv recovery"),
        refused(1, ScriptWhy::Word)
    );
    Ok(())
}

#[test]
fn frames(rt: HostRuntime) -> Result<(), Fail> {
    let alloc = rt.alloc();
    let mut line = [b'0'; 532];
    line[..8].copy_from_slice(b"spi bmc ");
    assert_eq!(rt; count(alloc, &line[..530]), Ok(1));
    assert_eq!(rt; count(alloc, &line), refused(1, ScriptWhy::Length));
    line[..10].copy_from_slice(b"smbus pch ");
    assert_eq!(rt; count(alloc, &line[..80]), Ok(1));
    assert_eq!(rt; count(alloc, &line[..82]), refused(1, ScriptWhy::Length));
    assert_eq!(rt; count(alloc, &line[..81]), refused(1, ScriptWhy::Hex));
    assert_eq!(rt; count(alloc, b"spi nv 0"), refused(1, ScriptWhy::Word));
    assert_eq!(rt; count(alloc, b"spi bmc "), refused(1, ScriptWhy::Word));
    Ok(())
}

#[test]
fn an_arm_and_its_tear(rt: HostRuntime) -> Result<(), Fail> {
    let script = parse(rt.alloc(), b"cut pch 7 0c00")?;
    assert_eq!(rt; script.items().len(), 1);
    let wanted = Arm {
        device: Device::Pch,
        what: ArmWhat::Cut,
        nth: 7,
        tear: 1,
    };
    let found = match script.items().get(0) {
        Item::Arm(arm) => *arm == wanted,
        Item::Event(_) => false,
    };
    assert!(rt; found);
    Ok(())
}

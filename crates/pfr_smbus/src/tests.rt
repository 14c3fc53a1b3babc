// What some frames are.
use crate::{SmbusCause, SmbusFrame};
use std::test::Fail;

#[test]
fn frames(rt: HostRuntime) -> Result<(), Fail> {
    let frame = SmbusFrame {
        bus: 1,
        address: 0x2e,
        command: 0x10,
    };
    assert_eq!(rt; SmbusFrame::read(&[1, 0x2e, 0x10]), Ok(frame));
    assert_eq!(rt; SmbusFrame::read(&[1, 0x2e, 0x10, 7, 7]), Ok(frame));
    assert_eq!(rt;
        SmbusFrame::read(&[1, 0x80, 0x10]),
        Err(SmbusCause::BadAddress)
    );
    assert_eq!(rt; SmbusFrame::read(&[1, 0x80]), Err(SmbusCause::ShortFrame));
    Ok(())
}

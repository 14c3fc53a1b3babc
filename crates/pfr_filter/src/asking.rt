// What frames ask a flash for.
ghost use Rattle.std.specs.Prelude.{◌≡◌, ◌≤◌, ◌<◌, length};
ghost use Rattle.pfr_filter.specs.Asking.{address_of, op_of, page_with};
ghost use Rattle.pfr_filter.specs.Opcodes.{needs};

use crate::command::Command;
use crate::verdict::BusOp;
use pfr_flash::big_number_at;

/// The address behind the opcode, its highest byte first.
pub(crate) fn address_of(frame: &[u8]) -> u32
    requires { 5 ≤ length frame.now }
    ensures { result ≡ address_of frame.now }
{
    big_number_at(frame, 1)
}

// The page of 256 bytes into which these are programmed from a place in it on. Past its end they go on at its begin.
fn page_with(place: usize, bytes: &[u8]) -> [u8; 256]
    requires place { place < 256 }
    requires few { length bytes.now ≤ 256 }
    ensures { result ≡ page_with place bytes.now }
{
    let mut page = [0xFF; 256];
    page[..bytes.len()].copy_from_slice(bytes);
    page.rotate_right(place);
    page
}

// What a frame asks for that programs a page.
fn program_of(frame: &[u8]) -> BusOp
    requires some { 5 ≤ length frame.now }
    requires most { length frame.now ≤ 261 }
    ensures { result ≡ op_of Command.PageProgram frame.now }
{
    let address = address_of(frame);
    let page = page_with((address % 256) as usize, &frame[5..]);
    BusOp::Program {
        at: 256 * (address / 256),
        page,
    }
}

/// What a frame asks for whose opcode is of this command.
pub(crate) fn op_of(command: Command, frame: &[u8]) -> BusOp
    requires long { needs command ≤ length frame.now }
    requires most { length frame.now ≤ 261 }
    ensures { result ≡ op_of command frame.now }
{
    match command {
        Command::Read | Command::FastRead => BusOp::Read,
        Command::ReadStatus => BusOp::Status,
        Command::ReadId => BusOp::Id,
        Command::WriteEnable => BusOp::WriteEnable,
        Command::WriteDisable => BusOp::WriteDisable,
        Command::PageProgram => program_of(frame),
        Command::SectorErase => BusOp::Erase {
            sector: address_of(frame) / 4096,
            count: 1,
        },
        Command::BlockErase => BusOp::Erase {
            sector: 16 * (address_of(frame) / 65536),
            count: 16,
        },
    }
}

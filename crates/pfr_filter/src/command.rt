// What the opcodes of frames ask for.
ghost use Rattle.std.specs.Prelude.{◌≡◌, MatchOption};
ghost use Rattle.pfr_filter.specs.Opcodes.{command_of};
ghost use Rattle.pfr_filter.specs.Rows.{IsRowOf};

/// What the opcode of a frame asks for; erasing the chip isn't among these.
#[derive(Clone, Copy, Debug, PartialEq, Eq)]
pub enum Command {
    Read,
    FastRead,
    ReadStatus,
    ReadId,
    WriteEnable,
    WriteDisable,
    PageProgram,
    SectorErase,
    BlockErase,
}

/// The opcode that erases the chip.
pub(crate) const CHIP_ERASE: u8 = 0xC7;

/// A row of the table of opcodes.
#[derive(Clone, Copy)]
pub(crate) struct Row {
    pub command: Command,
    /// How many bytes a frame needs.
    pub needs: usize,
    /// Whether an address stands behind the opcode.
    pub addressed: bool,
    /// Whether it passes only where writes are enabled.
    pub latched: bool,
}

// A row for each opcode: its number, what it asks for, how many bytes a frame needs, whether an address of four bytes
// stands behind the opcode, and whether writes have to be enabled.
macro_rules! rows {
    ($opcode:expr; $($number:literal => $command:ident, $needs:literal, $addressed:literal, $latched:literal;)*) => {
        match $opcode {
            $($number => Some(Row {
                command: Command::$command,
                needs: $needs,
                addressed: $addressed,
                latched: $latched,
            }),)*
            _ => None,
        }
    };
}

/// The row of an opcode, where there is one.
#[tactic(auto, unfolding(crate::specs::Opcodes::command_of))]
pub(crate) fn row_of(opcode: u8) -> Option<Row>
    ensures { MatchOption result (command_of opcode ≡ None) (IsRowOf opcode) }
{
    rows! {
        opcode;
        0x03 => Read, 5, true, false;
        0x0B => FastRead, 6, true, false;
        0x05 => ReadStatus, 1, false, false;
        0x9F => ReadId, 1, false, false;
        0x06 => WriteEnable, 1, false, false;
        0x04 => WriteDisable, 1, false, false;
        0x02 => PageProgram, 6, true, true;
        0x20 => SectorErase, 5, true, true;
        0xD8 => BlockErase, 5, true, true;
    }
}

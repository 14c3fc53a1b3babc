// What a frame on an SPI bus comes to.

/// What a frame asks of a flash.
#[derive(Clone, Copy, Debug, PartialEq, Eq)]
pub enum BusOp {
    /// Bytes are read.
    Read,
    /// The status is read.
    Status,
    /// The flash is asked which it is.
    Id,
    /// Writes are enabled, up to the next one.
    WriteEnable,
    /// Writes are disabled.
    WriteDisable,
    /// The 256 bytes of the page of 256 bytes that begins here are programmed, with 0xFF where nothing goes.
    Program { at: u32, page: [u8; 256] },
    /// So many sectors of 4,096 bytes are erased, from this one on.
    Erase { sector: u32, count: u32 },
}

/// Why a frame is blocked: the first of these that is so.
#[derive(Clone, Copy, Debug, PartialEq, Eq)]
pub enum BlockCause {
    /// Its opcode isn't known.
    Opcode,
    /// It asks to erase the whole chip.
    ChipErase,
    /// It has fewer bytes than its opcode needs.
    ShortFrame,
    /// Its address isn't in the flash.
    Range,
    /// It would write this page of 4,096 bytes, the first such, which the bank's manifest doesn't let the bus write.
    NotWritable(u32),
    /// It would write, and writes aren't enabled.
    NoLatch,
}

/// What a frame comes to.
#[derive(Clone, Copy, Debug, PartialEq, Eq)]
pub enum Verdict {
    Pass(BusOp),
    Block(BlockCause),
}

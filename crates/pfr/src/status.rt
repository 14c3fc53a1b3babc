// What a call answers.
ghost use Rattle.std.specs.Prelude.{◌≡◌};
ghost use Rattle.pfr_shelf.specs.Pieces.{Writes};
ghost use Rattle.pfr.specs.Judging.{limit_of};
ghost use Rattle.pfr.specs.Lines.{role_word, error_line, code_of};

use crate::reason::reason_of;
use itoa::Buffer;
use pfr_chain::EngineWhy;
use pfr_description::DescWhy;
use pfr_script::ScriptWhy;
use pfr_shelf::{Sink, SinkFail, write_pieces};

/// What a file is for.
#[derive(Clone, Copy, Debug, PartialEq, Eq)]
pub enum Role {
    /// The image of the BMC's bank.
    Bmc,
    /// The image of the PCH's bank.
    Pch,
    /// The image of the controller's store.
    Nv,
    /// The text of the engine: the signatures that it accepts, a line each.
    Engine,
    /// The text of the events that the platform is put through.
    Script,
    /// The text from which images, a store and certificates are made.
    Description,
    /// What the BMC's bank has in its active image before it is signed.
    BmcImage,
    /// The same of the PCH's bank.
    PchImage,
    /// What the BMC's bank has staged.
    BmcStaged,
    /// What the PCH's bank has staged.
    PchStaged,
    /// The BMC's update capsule.
    BmcCapsule,
    /// The PCH's update capsule.
    PchCapsule,
    /// A certificate that cancels a key.
    Cert,
}

/// Which rule a file breaks.
#[derive(Clone, Copy, Debug, PartialEq, Eq)]
pub enum Why {
    /// The image has a wrong length: a bank has a multiple of 65,536 bytes, at least one and at most 1,024
    /// times, and the store has 32,768.
    Size,
    /// A line of the engine's text breaks this rule.
    Engine(EngineWhy),
    /// A line of the script breaks this rule.
    Script(ScriptWhy),
    /// The description breaks this rule, or no image is made of it for this cause.
    Description(DescWhy),
}

/// How a command ended.
#[derive(Clone, Copy, Debug, PartialEq, Eq)]
pub enum Status {
    /// The command was done, and all that it writes was written.
    Done,
    /// The words are no command. No file was loaded.
    Usage,
    /// The file breaks a rule. The place is an image's length in bytes, the line of an engine's text or of a script,
    /// from 1, or 0 of a description.
    BadInput { file: Role, place: u32, why: Why },
    /// The file has more bytes than its role's limit.
    TooLong { file: Role },
    /// The file is not there, or could not be read.
    ReadFault { file: Role },
    /// The output failed. A prefix of what the command writes may have been written.
    WriteFault,
    /// The file could not be stored, and may hold anything. Those before it were stored, and a run has written its
    /// whole report.
    StoreFault { file: Role },
    /// There was not enough memory.
    NoMemory,
}

impl Role {
    /// The word that names it in an error's line.
    pub fn word(&self) -> &'static [u8]
        ensures { result.now ≡ role_word self.now }
    {
        match self {
            Role::Bmc => b"bmc",
            Role::Pch => b"pch",
            Role::Nv => b"nv",
            Role::Engine => b"engine",
            Role::Script => b"script",
            Role::Description => b"description",
            Role::BmcImage => b"bmc-image",
            Role::PchImage => b"pch-image",
            Role::BmcStaged => b"bmc-staged",
            Role::PchStaged => b"pch-staged",
            Role::BmcCapsule => b"bmc-capsule",
            Role::PchCapsule => b"pch-capsule",
            Role::Cert => b"cert",
        }
    }

    /// The most bytes that such a file may have when it is loaded.
    pub fn limit(&self) -> u32
        ensures { result ≡ limit_of self.now }
    {
        match self {
            Role::Nv => 32_768,
            Role::Engine => 4_194_304,
            Role::Script => 50_331_648,
            Role::Description => 262_144,
            Role::Bmc
            | Role::Pch
            | Role::BmcImage
            | Role::PchImage
            | Role::BmcStaged
            | Role::PchStaged
            | Role::BmcCapsule
            | Role::PchCapsule
            | Role::Cert => 67_108_864,
        }
    }
}

impl Status {
    /// The exit code.
    pub fn code(&self) -> u8
        ensures { result ≡ code_of self.now }
    {
        match self {
            Status::Done => 0,
            Status::Usage => 2,
            Status::BadInput { .. } | Status::TooLong { .. } => 3,
            Status::ReadFault { .. } => 4,
            Status::WriteFault => 5,
            Status::StoreFault { .. } => 6,
            Status::NoMemory => 7,
        }
    }

    /// Writes its line, if it has one.
    pub fn tell<K: Sink>(&self, out: &mut K) -> Result<(), SinkFail>
        ensures { Writes K.tells K.written K.faults out.old out.new (error_line self.now) result }
    {
        match self {
            Status::Done | Status::WriteFault => Ok(()),
            Status::Usage => write_pieces(out, &[b"error: usage\n"]),
            Status::BadInput { file, place, why } => {
                let mut buffer = Buffer::new();
                let place = buffer.format(*place).as_bytes();
                let reason = reason_of(*why);
                let mut digits = Buffer::new();
                let number = reason.cause.digits(&mut digits);
                write_pieces(
                    out,
                    &[
                        b"error: ",
                        file.word(),
                        b" ",
                        place,
                        b" ",
                        reason.bank,
                        reason.cause.kind,
                        reason.cause.word,
                        reason.cause.colon(),
                        number,
                        b"\n",
                    ],
                )
            }
            Status::TooLong { file } => write_pieces(
                out,
                &[b"error: ", file.word(), b" too long\n"],
            ),
            Status::ReadFault { file } => {
                write_pieces(out, &[b"error: cannot read ", file.word(), b"\n"])
            }
            Status::StoreFault { file } => {
                write_pieces(out, &[b"error: cannot store ", file.word(), b"\n"])
            }
            Status::NoMemory => write_pieces(out, &[b"error: no memory\n"]),
        }
    }
}

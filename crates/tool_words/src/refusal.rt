//! Why a command is refused: the answer and the line of each cause.
ghost use Rattle.std.specs.Prelude.{◌≡◌};
ghost use Rattle.tk_outside.specs.Writes.{Writes};
ghost use Rattle.tool_words.specs.Refusals.{edit_refused, file_text, image_fault_text, limit_of};
ghost use Rattle.tool_words.specs.Refusals.{status_of, refusal_line};

use image_make::EditFault;
use itoa::Buffer;
use script_text::ScriptRule;
use tk_base::{FLASH_LIMIT, SCRIPT_LIMIT};
use tk_outside::{Failed, Sink, put_all, put_pieces};

/// One of the files that the words name.
#[derive(Clone, Copy, Debug, PartialEq, Eq)]
pub enum File {
    Flash,
    Script,
}

impl File {
    /// The file as a line names it.
    fn word(self) -> &'static [u8]
        ensures { result.now ≡ file_text self }
    {
        match self {
            File::Flash => b"flash",
            File::Script => b"script",
        }
    }

    /// The greatest number of bytes of the file.
    pub fn limit(self) -> usize
        ensures { result ≡ limit_of self }
    {
        match self {
            File::Flash => FLASH_LIMIT,
            File::Script => SCRIPT_LIMIT,
        }
    }
}

/// Why no image is written: the first of these that holds.
#[derive(Clone, Copy, Debug, PartialEq, Eq)]
pub enum ImageFault {
    /// No object to edit stands at the offset.
    NoObject,
    /// The new name is none.
    BadName,
    /// The object has no name of the new one's length rounded up to 4.
    NameLength,
    /// The files have more objects than an image may have.
    TooMany,
    /// The files' objects have more than 1,048,576 bytes.
    Size,
}

impl ImageFault {
    /// The fault of an edit that is refused.
    pub fn of_edit(fault: EditFault) -> ImageFault
        ensures { result ≡ edit_refused fault }
    {
        match fault {
            EditFault::NoObject => ImageFault::NoObject,
            EditFault::Name => ImageFault::BadName,
            EditFault::Length => ImageFault::NameLength,
        }
    }

    /// The fault as a line names it.
    fn word(self) -> &'static [u8]
        ensures { result.now ≡ image_fault_text self }
    {
        match self {
            ImageFault::NoObject => b"no-object",
            ImageFault::BadName => b"bad-name",
            ImageFault::NameLength => b"name-length",
            ImageFault::TooMany => b"too-many",
            ImageFault::Size => b"too-long",
        }
    }
}

/// Why a command is refused.
#[derive(Clone, Copy, Debug, PartialEq, Eq)]
pub enum Refusal {
    /// The words are no command.
    Usage,
    /// A file could not be read.
    Fault(File),
    /// A file has more bytes than its limit.
    TooLong(File),
    /// The script has no reading: its first bad line, counted from 1, and the first rule that it
    /// breaks.
    Script { line: u32, rule: ScriptRule },
    /// No image is written.
    Image(ImageFault),
    /// There was no memory.
    Memory,
}

impl Refusal {
    /// The answer of the program.
    pub fn status(self) -> u8
        ensures { result ≡ status_of self }
    {
        match self {
            Refusal::Usage => 2,
            Refusal::Fault(_) => 3,
            Refusal::TooLong(_) => 4,
            Refusal::Script { .. } => 5,
            Refusal::Memory => 7,
            Refusal::Image(_) => 8,
        }
    }

    /// Writes the line of the refusal.
    pub fn write_line<K: Sink>(self, out: &mut K) -> Result<(), Failed>
        ensures { Writes K.tells out.old out.new (refusal_line self) result }
    {
        match self {
            Refusal::Usage => put_all(
                out,
                b"usage: tock boot FLASH SCRIPT --turns N | trace FLASH SCRIPT --turns N | list FLASH | soak NUMBER --turns N | pack FILE .. | enable FLASH OFFSET | disable FLASH OFFSET | rename FLASH OFFSET NAME\n",
            ),
            Refusal::Fault(file) => put_pieces(out, &[b"file ", file.word(), b" fault\n"]),
            Refusal::TooLong(file) => put_pieces(out, &[b"file ", file.word(), b" too long\n"]),
            Refusal::Script { line, rule } => {
                let mut digits = Buffer::new();
                let number = digits.format(line).as_bytes();
                put_pieces(out, &[b"script ", number, b" ", rule.word(), b"\n"])
            }
            Refusal::Image(fault) => put_pieces(out, &[b"image ", fault.word(), b"\n"]),
            Refusal::Memory => put_all(out, b"memory\n"),
        }
    }
}

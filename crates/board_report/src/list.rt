//! The list of what a flash image holds: a line for each object, and how many there are.
ghost use Rattle.std.specs.Prelude.{◌≡◌, ◌≤◌, length, All};
ghost use Rattle.tk_outside.specs.Writes.{Writes};
ghost use Rattle.flash_walk.specs.Image.{objects, IsObject};
ghost use Rattle.board_report.specs.FlashList.{bad_text, verdict_text, object_text};
ghost use Rattle.board_report.specs.Parts.{object_texts};
ghost use Rattle.board_report.specs.FlashList.{list_text};
ghost use Rattle.board_report.specs.Parts.{count_text};

use flash_walk::{Found, Verdict, objects_are_found};
use itoa::Buffer;
use process_record::{object_name, shown_name};
use tbf_headers::{HeaderFault, object_at};
use tk_base::FLASH_LIMIT;
use tk_outside::{Failed, Sink, put_pieces, writes_compose};

/// The word of an object whose header has a fault. A walk lists none that is too short or of
/// another version.
fn bad_word(fault: HeaderFault) -> &'static [u8]
    ensures { result.now ≡ bad_text fault }
{
    match fault {
        HeaderFault::Short => b"bad-short",
        HeaderFault::Version => b"bad-version",
        HeaderFault::Sizes => b"bad-sizes",
        HeaderFault::Checksum => b"bad-checksum",
        HeaderFault::Tlv(_) => b"bad-tlv",
    }
}

/// The word of a verdict.
fn verdict_word(verdict: Verdict) -> &'static [u8]
    ensures { result.now ≡ verdict_text verdict }
{
    match verdict {
        Verdict::Bad(fault) => bad_word(fault),
        Verdict::Padding => b"padding",
        Verdict::Disabled => b"disabled",
        Verdict::BadEntry => b"bad-entry",
        Verdict::WrongFlash => b"wrong-flash",
        Verdict::App => b"app",
    }
}

/// Writes the line of an object.
#[tactic(auto, unfolding(crate::specs::FlashList::object_text))]
fn write_object<K: Sink>(out: &mut K, flash: &[u8], object: &Found) -> Result<(), Failed>
    requires { IsObject flash.now object.now }
    ensures { Writes K.tells out.old out.new (object_text flash.now object.now) result }
{
    let mut offset = Buffer::new();
    let mut size = Buffer::new();
    let bytes = object_at(flash, object.offset, object.size);
    let name = shown_name(&object_name(bytes));
    put_pieces(
        out,
        &[
            b"object ",
            offset.format(object.offset).as_bytes(),
            b" ",
            size.format(object.size).as_bytes(),
            b" ",
            verdict_word(object.verdict),
            b" ",
            &name,
            b"\n",
        ],
    )
}

/// Writes the lines of objects.
fn write_objects<K: Sink>(out: &mut K, flash: &[u8], found: &[Found]) -> Result<(), Failed>
    requires { All (IsObject flash.now) found.now }
    ensures { Writes K.tells out.old out.new (object_texts flash.now found.now) result }
{
    writes_compose::<K>();
    for object in found {
        write_object(out, flash, object)?;
    }
    Ok(())
}

/// Writes how many objects there are.
#[tactic(auto, unfolding(crate::specs::Parts::count_text))]
fn write_count<K: Sink>(out: &mut K, count: usize) -> Result<(), Failed>
    ensures { Writes K.tells out.old out.new (count_text count) result }
{
    let mut digits = Buffer::new();
    put_pieces(out, &[b"objects ", digits.format(count).as_bytes(), b"\n"])
}

/// Writes the list of the objects of a flash image of at most [`FLASH_LIMIT`] bytes, in flash
/// order: for each `object OFFSET SIZE VERDICT NAME`, where offset and size are in bytes, and then
/// `objects N`.
///
/// The verdict is `app`, `padding`, `disabled`, `bad-entry`, `wrong-flash`, or for a header with a
/// fault `bad-sizes`, `bad-checksum` or `bad-tlv`. The name is the package's (Tock Binary Format,
/// "Package Name") as the report shows it, and `-` where there is none or the header has a fault.
///
/// [`Failed`] comes only where the sink's count of faults rose; a part of the list was written then
/// that lacks at least one byte. No memory is taken.
pub fn write_list<K: Sink>(flash: &[u8], found: &[Found], out: &mut K) -> Result<(), Failed>
    requires flash { length flash.now ≤ FLASH_LIMIT }
    requires found { found.now ≡ objects flash.now }
    ensures { Writes K.tells out.old out.new (list_text flash.now) result }
{
    writes_compose::<K>();
    objects_are_found();
    write_objects(out, flash, found)?;
    write_count(out, found.len())
}

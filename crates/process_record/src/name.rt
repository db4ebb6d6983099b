//! The name that the report shows.
ghost use Rattle.std.specs.Prelude.{◌≡◌, ◌≤◌, length, take};
ghost use Rattle.std.specs.Option.{option_copied};
ghost use Rattle.process_record.specs.Name.{name_of};
ghost use Rattle.process_record.specs.Parts.{short_name};

use arrayvec::ArrayVec;
use tbf_headers::read_header;

/// The first 32 bytes of a package name (Tock Binary Format, "Package Name"), which may have fewer;
/// empty where there is none.
pub fn short_name(name: Option<&[u8]>) -> ArrayVec<u8, 32>
    ensures { result.items ≡ short_name (option_copied name.entry) }
{
    let mut short = ArrayVec::new();
    if let Some(name) = name {
        let Ok(()) = short.try_extend_from_slice(front(name)) else {
            unreachable!()
        };
    }
    short
}

/// The name that the report shows of an object with these bytes; empty where its header has a
/// fault.
pub fn object_name(object: &[u8]) -> ArrayVec<u8, 32>
    ensures { result.items ≡ name_of object.now }
{
    match read_header(object) {
        Ok(header) => short_name(header.name()),
        Err(_) => short_name(None),
    }
}

/// The first 32 bytes, or all where there are no more.
fn front(bytes: &[u8]) -> &[u8]
    ensures front { result.now ≡ take 32 bytes.now }
    ensures few { length result.now ≤ 32 }
{
    if bytes.len() > 32 {
        &bytes[..32]
    } else {
        bytes
    }
}

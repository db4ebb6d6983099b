//! Edits of one object of a flash image.
ghost use Rattle.std.specs.Prelude.{◌≡◌, ◌+◌, ◌%◌, ◌<◌, ◌≤◌, length, IfSome, OnOk, Some, None, Ok, false, true};
ghost use Rattle.std.specs.List.{list_all};
ghost use Rattle.tk_base.specs.Numbers.{rounded_up};
ghost use Rattle.tbf_headers.specs.Numbers.{half, word_at};
ghost use Rattle.tbf_headers.specs.Meaning.{header_reading, meaning_of};
ghost use Rattle.tbf_headers.specs.Objects.{object_at};
ghost use Rattle.flash_walk.specs.Image.{objects};
ghost use Rattle.image_make.specs.Edited.{LeavesEnabled, LeavesGiven};
ghost use Rattle.image_make.specs.Edits.{mended, with_flags, with_enabled, padded, renamed};
ghost use Rattle.image_make.specs.Parts.{object_found};
ghost use Rattle.image_make.specs.Outcomes.{has_fault, sound_found, IsSoundObject, found_bytes, enabled, enabling};
ghost use Rattle.image_make.specs.Outcomes.{may_name, place_for, IsNamePlace, with_name, renaming, Edits};
ghost use Rattle.image_make.specs.Parts.{is_name_byte};

use crate::laws::{enabled_is_walked, given_is_walked};
use arrayvec::ArrayVec;
use flash_walk::{Found, Verdict, walk};
use tbf_headers::{NAME, checksum_of, first_tlv, half_at, object_at, word_at};
use tk_base::{FLASH_LIMIT, Width, a_store_is_put, put_number};

/// Why an object is not edited: the first of these that holds.
#[derive(Clone, Copy, Debug, PartialEq, Eq)]
pub enum EditFault {
    /// The walk finds no object at the offset, or its header has a fault.
    NoObject,
    /// The name has not 1 to 32 bytes, or one that is not visible ASCII.
    Name,
    /// The object has no package name, or its length rounded up to 4 is not that of the new name.
    Length,
}

/// Whether a header has a fault.
fn is_faulty(verdict: Verdict) -> bool
    ensures { result ≡ has_fault verdict }
{
    match verdict {
        Verdict::Bad(_) => true,
        _ => false,
    }
}

/// The object at an offset among those that were found.
fn object_in(found: &[Found], offset: u32) -> Option<Found>
    ensures { result ≡ object_found offset found.now }
{
    found.iter().find(|object| object.offset == offset).copied()
}

/// The object that the walk finds at an offset.
fn object_from(flash: &[u8], offset: u32) -> Option<Found>
    requires short { length flash.now ≤ FLASH_LIMIT }
    ensures { result ≡ object_found offset (objects flash.now) }
{
    let mut found = ArrayVec::new();
    walk(flash, &mut found);
    object_in(found.as_slice(), offset)
}

/// The object that the walk finds at an offset, where its header has no fault.
fn sound_object(flash: &[u8], offset: u32) -> Option<Found>
    requires short { length flash.now ≤ FLASH_LIMIT }
    ensures found { result ≡ sound_found offset (objects flash.now) }
    ensures sound { IfSome result (λ f. IsSoundObject flash.now f) }
{
    let object = object_from(flash, offset)?;
    if is_faulty(object.verdict) {
        return None;
    }
    Some(object)
}

/// Puts the checksum that the header's words have.
#[tactic(auto, unfolding(crate::specs::Edits::mended))]
fn mend(object: &mut [u8])
    requires long { 16 ≤ length object.old }
    requires header { half object.old 2 ≤ length object.old }
    ensures { object.new ≡ mended object.old }
{
    let header_size = usize::from(half_at(object, 2));
    let sum = checksum_of(&object[..header_size]);
    put_number(object, 12, Width::Word, sum);
}

/// Puts other flags, and mends the checksum.
#[tactic(auto, unfolding(crate::specs::Edits::with_flags))]
fn put_flags(object: &mut [u8], flags: u32)
    requires long { 16 ≤ length object.old }
    requires header { half object.old 2 ≤ length object.old }
    ensures { object.new ≡ with_flags flags object.old }
{
    a_store_is_put();
    put_number(object, 8, Width::Word, flags);
    mend(object);
}

/// The flags with bit 0 set or clear.
fn flags_of(flags: u32, on: bool) -> u32
    ensures { result ≡ with_enabled on flags }
{
    if on { flags / 2 * 2 + 1 } else { flags / 2 * 2 }
}

/// Enables or disables an object.
fn enable(object: &mut [u8], on: bool)
    requires long { 16 ≤ length object.old }
    requires header { half object.old 2 ≤ length object.old }
    ensures { object.new ≡ with_flags (with_enabled on (word_at object.old 8)) object.old }
{
    let flags = flags_of(word_at(object, 8), on);
    put_flags(object, flags);
}

/// Enables or disables an object that was found.
#[tactic(auto, unfolding(crate::specs::Outcomes::enabled))]
fn enable_object(flash: &mut [u8], object: &Found, on: bool)
    requires sound { IsSoundObject flash.old object.now }
    ensures { flash.new ≡ enabled on flash.old object.now }
{
    let from = object.offset as usize;
    enable(&mut flash[from..from + object.size as usize], on);
}

/// Enables an object of a flash image or disables it: bit 0 of its flags is set or clear, and its
/// checksum is right again (Tock Binary Format, "TBF Header Base"). `offset` is that of the object from
/// the start of the image, in bytes. On a refusal nothing has changed.
///
/// [`EditFault::NoObject`] where the walk finds no object there, or one whose header has a fault.
pub fn set_enabled(flash: &mut [u8], offset: u32, on: bool) -> Result<(), EditFault>
    requires short { length flash.old ≤ FLASH_LIMIT }
    ensures edits { Edits (enabling on offset flash.old) flash.old flash.new result }
    ensures walked { OnOk result (LeavesEnabled on offset flash.old flash.new) }
{
    enabled_is_walked();
    match sound_object(flash, offset) {
        None => Err(EditFault::NoObject),
        Some(object) => {
            enable_object(flash, &object, on);
            Ok(())
        }
    }
}

/// Whether a byte is visible ASCII.
fn is_visible_byte(byte: u8) -> bool
    ensures { result ≡ is_name_byte byte }
{
    byte >= 0x21 && byte <= 0x7e
}

/// Whether all bytes are visible ASCII.
fn are_visible(bytes: &[u8]) -> bool
    ensures { result ≡ list_all is_name_byte bytes.now }
{
    bytes.iter().all(|byte| is_visible_byte(*byte))
}

/// Whether a package name may be given: 1 to 32 bytes of visible ASCII.
fn is_name(name: &[u8]) -> bool
    ensures { result ≡ may_name name.now }
{
    name.len() >= 1 && name.len() <= 32 && are_visible(name)
}

/// A length with its padding.
fn rounded(length: usize) -> usize
    requires { length < 65536 }
    ensures { result ≡ rounded_up length }
{
    length.next_multiple_of(4)
}

/// Where the package name of an object stands, if its length rounded up to 4 is that of another
/// name.
fn place_of_name(object: &[u8], name: &[u8]) -> Option<usize>
    requires long { 16 ≤ length object.now }
    requires read { header_reading object.now ≡ Ok (meaning_of object.now) }
    requires header { half object.now 2 ≤ length object.now }
    requires aligned { half object.now 2 % 4 ≡ 0 }
    requires few { length name.now ≤ 32 }
    ensures place { result ≡ place_for name.now object.now }
    ensures fits { IfSome result (IsNamePlace object.now name.now) }
{
    let header = &object[..usize::from(half_at(object, 2))];
    let at = first_tlv(header, NAME)?;
    let length = usize::from(half_at(header, at + 2));
    if rounded(name.len()) != rounded(length) {
        return None;
    }
    Some(at)
}

/// Puts a name into a part, and zeros behind it.
fn put_padded(part: &mut [u8], name: &[u8])
    requires { length part.old ≡ rounded_up (length name.now) }
    ensures { part.new ≡ padded name.now }
{
    part.fill(0);
    part[..name.len()].copy_from_slice(name);
}

/// Puts another package name into an object, and mends its checksum.
#[tactic(auto, unfolding(crate::specs::Edits::renamed))]
fn put_name(object: &mut [u8], at: usize, name: &[u8])
    requires place { IsNamePlace object.old name.now at }
    requires header { half object.old 2 ≤ length object.old }
    requires few { length name.now ≤ 32 }
    ensures { object.new ≡ renamed at name.now object.old }
{
    a_store_is_put();
    put_number(object, at + 2, Width::Half, name.len() as u32);
    let start = at + 4;
    put_padded(&mut object[start..start + rounded(name.len())], name);
    mend(object);
}

/// Gives an object that was found another package name.
#[tactic(auto, unfolding(crate::specs::Outcomes::with_name))]
fn rename_object(flash: &mut [u8], object: &Found, at: usize, name: &[u8])
    requires sound { IsSoundObject flash.old object.now }
    requires place { IsNamePlace (found_bytes object.now flash.old) name.now at }
    requires few { length name.now ≤ 32 }
    ensures { flash.new ≡ with_name name.now flash.old object.now at }
{
    let from = object.offset as usize;
    put_name(&mut flash[from..from + object.size as usize], at, name);
}

/// Gives an object of a flash image another package name, of the same length rounded up to 4; its
/// checksum is right again (Tock Binary Format, "Package Name"). `offset` is that of the object from
/// the start of the image, in bytes. On a refusal nothing has changed.
///
/// [`EditFault::NoObject`] where the walk finds no object there, or one whose header has a fault; else
/// [`EditFault::Name`] where the name has not 1 to 32 bytes, or one that is not visible ASCII; else
/// [`EditFault::Length`] where the object has no package name, or one of another rounded length.
pub fn rename(flash: &mut [u8], offset: u32, name: &[u8]) -> Result<(), EditFault>
    requires short { length flash.old ≤ FLASH_LIMIT }
    ensures edits { Edits (renaming name.now offset flash.old) flash.old flash.new result }
    ensures walked { OnOk result (LeavesGiven name.now offset flash.old flash.new) }
{
    given_is_walked();
    let Some(object) = sound_object(flash, offset) else {
        return Err(EditFault::NoObject);
    };
    if !is_name(name) {
        return Err(EditFault::Name);
    }
    let Some(at) = place_of_name(object_at(flash, object.offset, object.size), name) else {
        return Err(EditFault::Length);
    };
    rename_object(flash, &object, at, name);
    Ok(())
}

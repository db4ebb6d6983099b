//! Packs flash images one behind another.
ghost use Rattle.std.specs.Prelude.{◌≡◌, ◌≤◌, length, OnOk};
ghost use Rattle.tk_base.specs.declared.limits.TheConstants.{OBJECT_LIMIT};
ghost use Rattle.flash_walk.specs.Image.{objects};
ghost use Rattle.image_make.specs.Images.{covered, packed};
ghost use Rattle.image_make.specs.Packs.{KeepsObjects, Packs, PacksBehind};

use crate::laws::packed_is_walked;
use arrayvec::ArrayVec;
use flash_walk::{Found, walk};
use tk_base::{FLASH_LIMIT, OBJECT_LIMIT};

/// Why a file is not packed: the first of these that holds.
#[derive(Clone, Copy, Debug, PartialEq, Eq)]
pub enum PackFault {
    /// There would be more objects than [`OBJECT_LIMIT`].
    Objects,
    /// There would be more than 1 MiB.
    Size,
    /// Memory was not to be had.
    Memory,
}

/// How many bytes objects have together.
fn covered_by(found: &[Found]) -> usize
    requires { covered found.now ≤ FLASH_LIMIT }
    ensures { result ≡ covered found.now }
{
    let mut size = 0;
    for object in found {
        size += object.size as usize;
    }
    size
}

/// How many objects a file has, and how many bytes they have together.
fn extent(file: &[u8]) -> (u32, usize)
    requires { length file.now ≤ FLASH_LIMIT }
    ensures count { result.0 ≡ length (objects file.now) }
    ensures few { result.0 ≤ OBJECT_LIMIT }
    ensures size { result.1 ≡ covered (objects file.now) }
    ensures within { result.1 ≤ length file.now }
{
    let mut found = ArrayVec::new();
    walk(file, &mut found);
    (found.len() as u32, covered_by(found.as_slice()))
}

/// Appends the bytes of a file that the walk over it covers, and counts its objects. What stands behind
/// the last object is left out. Each object of the image has exactly the bytes that it had, at its place,
/// and so has each object of the file, as many bytes further on as the image was long. On a refusal
/// nothing has changed.
///
/// [`PackFault::Objects`] where there would be more than [`OBJECT_LIMIT`] objects, else [`PackFault::Size`] where there
/// would be more than 1,048,576 bytes, else [`PackFault::Memory`] where there was no memory.
#[tactic(auto, unfolding(crate::specs::Images::packed))]
pub fn pack_one(image: &mut Vec<u8>, file: &[u8], objects: &mut u32) -> Result<(), PackFault>
    requires few { objects.old ≤ OBJECT_LIMIT }
    requires image { length image.old.items ≤ FLASH_LIMIT }
    requires file { length file.now ≤ FLASH_LIMIT }
    ensures packs { Packs (record { count = objects.old; bytes = image.old.items }) file.now result
        (record { count = objects.new; bytes = image.new.items }) }
    ensures walked { OnOk result (PacksBehind objects.old image.old.items file.now) }
    ensures keeps { OnOk result (KeepsObjects image.old.items file.now image.new.items) }
    ensures few_objects { OnOk result (objects.new ≤ OBJECT_LIMIT) }
    ensures short_image { OnOk result (length image.new.items ≤ FLASH_LIMIT) }
{
    packed_is_walked();
    let (found, size) = extent(file);
    let count = *objects + found;
    if count as usize > OBJECT_LIMIT {
        return Err(PackFault::Objects);
    }
    if image.len() + size > FLASH_LIMIT {
        return Err(PackFault::Size);
    }
    match image.extend_from_slice(&file[..size]) {
        Err(_) => Err(PackFault::Memory),
        Ok(()) => {
            *objects = count;
            Ok(())
        }
    }
}

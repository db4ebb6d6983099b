//! The walk over the objects of a flash image.
ghost use Rattle.std.specs.Prelude.{◌≡◌, ◌+◌, ◌%◌, ◌≤◌, length, All, Some, None, IfSome, if◌then◌else◌};
ghost use Rattle.flash_walk.specs.Image.{ends_at, found_at, objects, IsObject};

use crate::found::Found;
use crate::verdict::verdict_on;
use arrayvec::ArrayVec;
use tbf_headers::{half_at, object_at, word_at};
use tk_base::{FLASH_LIMIT, FLASH_START, OBJECT_LIMIT};

/// The object at a place. None where fewer than 16 bytes are left, the version is not 2, or the
/// total size is below 16, no multiple of 4 or beyond what is left.
#[tactic(auto, unfolding(crate::specs::Image::found_at))]
fn object_from(flash: &[u8], at: usize) -> Option<Found>
    requires place { at ≤ length flash.now }
    requires aligned { at % 4 ≡ 0 }
    requires short { length flash.now ≤ FLASH_LIMIT }
    ensures object { result
        ≡ (if ends_at flash.now at then None else Some (found_at flash.now at)) }
    ensures whole { IfSome result (λ f. (f.offset ≡ at) × (f.size % 4 ≡ 0) × IsObject flash.now f) }
{
    let left = flash.len() - at;
    if left < 16 || half_at(flash, at) != 2 {
        return None;
    }
    let size = word_at(flash, at + 4);
    if size < 16 || size % 4 != 0 || size as usize > left {
        return None;
    }
    let offset = at as u32;
    let bytes = object_at(flash, offset, size);
    Some(Found {
        offset,
        size,
        verdict: verdict_on(bytes, FLASH_START + offset),
    })
}

/// Finds the objects of a flash image, one after another from its first byte on (Tock Binary
/// Format: each header's total size leads to the next one). The walk ends where no object stands, or
/// with the 64th.
pub fn walk(flash: &[u8], found: &mut ArrayVec<Found, OBJECT_LIMIT>)
    requires { length flash.now ≤ FLASH_LIMIT }
    ensures objects { found.new.items ≡ objects flash.now }
    // Each of them lies in flash, and its verdict is that on its own bytes.
    ensures each { All (IsObject flash.now) found.new.items }
{
    found.clear();
    let mut at = 0;
    while found.len() < OBJECT_LIMIT {
        let Some(object) = object_from(flash, at) else {
            return;
        };
        found.push(object);
        at += object.size as usize;
    }
}

//! The header of a process's own object, which has no fault: of its TLVs the one that is asked for
//! is read, and nothing else.
ghost use Rattle.std.specs.Prelude.{◌≡◌, IsSome};
ghost use Rattle.tbf_headers.specs.Meaning.{header_reading, main_by};
ghost use Rattle.process_model.specs.Flash.{object_in};
ghost use Rattle.process_restart.specs.Own.{HasHeader, StartsAs};

use process_model::Object;
use tbf_headers::{AppStart, object_at, start_in};
use tk_base::FLASH_START;

/// The bytes of an object in flash.
pub fn object_of<'a>(flash: &'a [u8], object: &Object) -> &'a [u8]
    requires { HasHeader flash.now object.now }
    ensures { result.now ≡ object_in flash.now object.now }
{
    object_at(flash, object.address - FLASH_START, object.size)
}

/// Where the application of an object in flash starts. It asks that there is one: the header has a
/// Program or a Main TLV.
pub fn start_of(flash: &[u8], object: &Object) -> AppStart
    requires lies { HasHeader flash.now object.now }
    requires main { IsSome (main_by (header_reading (object_in flash.now object.now))) }
    ensures { StartsAs (object_in flash.now object.now) object.now.address result }
{
    let Some(start) = start_in(object_of(flash, object), object.address) else {
        unreachable!()
    };
    start
}

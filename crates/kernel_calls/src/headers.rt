//! The writeable flash regions in the header of a process's own object, which has no fault.
ghost use Rattle.std.specs.Prelude.{◌≡◌, option_and_then};
ghost use Rattle.kernel_model.specs.Parts.{regions_named};
ghost use Rattle.tbf_headers.specs.Meaning.{header_reading, region_count, region_in};
ghost use Rattle.process_model.specs.Flash.{object_in};
ghost use Rattle.process_restart.specs.Own.{HasHeader};

use process_model::Object;
use process_restart::object_of;
use tbf_headers::{region_count_in, region_in};

/// How many writeable flash regions an object in flash has.
pub fn region_count_of(flash: &[u8], object: &Object) -> u32
    requires { HasHeader flash.now object.now }
    ensures { result
        ≡ region_count (regions_named (header_reading (object_in flash.now object.now))) }
{
    region_count_in(object_of(flash, object))
}

/// The offset and the size of writeable flash region n of an object in flash.
pub fn region_of(flash: &[u8], object: &Object, n: u32) -> Option<(u32, u32)>
    requires { HasHeader flash.now object.now }
    ensures { result ≡ option_and_then (region_in n)
        (regions_named (header_reading (object_in flash.now object.now))) }
{
    region_in(object_of(flash, object), n)
}

//! Little-endian numbers in bytes.
ghost use Rattle.std.specs.Prelude.{◌≡◌, ◌+◌, ◌<◌, ◌≤◌, ◌^◌, length, slice_index};
ghost use Rattle.tk_base.specs.declared.access.Width.TheVariants.{Half};
ghost use Rattle.tk_base.specs.Access.{width_bytes};
ghost use Rattle.tk_base.specs.Bus.{number_at, put};

use crate::access::Width;
use byteorder::{ByteOrder, LittleEndian};

/// The little-endian number at a place of some bytes.
#[inline]
pub fn number_in(bytes: &[u8], at: usize, width: Width) -> u32
    requires { at + width_bytes width ≤ length bytes.now }
    ensures value { result ≡ number_at (slice_index bytes.now) at width }
    ensures half { width ≡ Half → result < 2 ^ 16 }
{
    match width {
        Width::Byte => u32::from(bytes[at]),
        Width::Half => u32::from(LittleEndian::read_u16(&bytes[at..])),
        Width::Word => LittleEndian::read_u32(&bytes[at..]),
    }
}

/// Puts the lowest bytes of a value at a place of some bytes, as many as an access of the width
/// covers.
#[inline]
#[tactic(auto, using(crate::proofs::Puts::word_over))]
pub fn put_number(bytes: &mut [u8], at: usize, width: Width, value: u32)
    requires { at + width_bytes width ≤ length bytes.old }
    ensures { bytes.new ≡ put bytes.old at width value }
{
    let (_, place) = bytes.split_at_mut(at);
    match width {
        Width::Byte => place[0] = (value % 256) as u8,
        Width::Half => LittleEndian::write_u16(place, (value % 65536) as u16),
        Width::Word => LittleEndian::write_u32(place, value),
    }
}

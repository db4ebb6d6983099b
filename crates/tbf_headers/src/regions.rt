//! The writeable flash regions of an application.
ghost use Rattle.std.specs.Prelude.{◌≡◌, ◌<◌, length, Some};

use crate::numbers::word_at;

/// The writeable flash regions of an application (Tock Binary Format, "Writeable Flash Regions").
/// It borrows the content of the TLV.
#[derive(Clone, Copy, Debug)]
pub struct Regions<'a> {
    content: &'a [u8],
    ghost short: { length content.now < 65536 },
}

impl<'a> Regions<'a> {
    ghost use Rattle.tbf_headers.specs.Meaning.{region_in, region_count};
    ghost use Rattle.tbf_headers.specs.Shown.{regions_of};

    /// The regions of a TLV's content.
    pub(crate) fn of(content: &'a [u8]) -> Regions<'a>
        requires { length content.now < 65536 }
        ensures { regions_of result ≡ content.now }
    {
        Regions { content }
    }

    /// How many regions there are.
    pub fn count(&self) -> u32
        ensures { result ≡ region_count (Some (regions_of self.now)) }
    {
        (self.content.len() / 8) as u32
    }

    /// The offset and the size of region n. None where there is no region of that number.
    pub fn get(&self, n: u32) -> Option<(u32, u32)>
        ensures { result ≡ region_in n (regions_of self.now) }
    {
        if n >= self.count() {
            return None;
        }
        let at = 8 * n as usize;
        Some((word_at(self.content, at), word_at(self.content, at + 4)))
    }
}

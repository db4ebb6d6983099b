//! The header of an application.
ghost use Rattle.std.specs.Prelude.{◌≡◌, ◌+◌, Some};
ghost use Rattle.tk_base.specs.Numbers.{rounded_up};
ghost use Rattle.tbf_headers.specs.Addresses.{after_protected, accessible_start, accessible_end_of};
ghost use Rattle.tbf_headers.specs.Addresses.{start_by};
ghost use Rattle.tbf_headers.specs.Shown.{shown};

use crate::header::Header;
use crate::program::Main;
use tk_base::Addr;

/// The header of an application: one that has a Program or a Main TLV. [`Header::app`] makes it.
#[derive(Clone, Copy, Debug)]
pub struct AppHeader<'a> {
    /// The whole header.
    pub header: Header<'a>,
    /// What its Program TLV says, or else its Main TLV.
    pub main: Main,
    pub ghost has_main: { header.main ≡ Some main },
}

/// Where the application of an object starts that stands at an address, and the RAM that it needs.
/// [`AppHeader::start`] and [`start_in`](crate::start_in) make it.
#[derive(Clone, Copy, Debug, PartialEq, Eq)]
pub struct AppStart {
    /// The address of its first instruction.
    pub entry: u64,
    /// The first address after the header and the protected bytes.
    pub after_protected: u64,
    /// How many bytes of RAM it needs at least.
    pub minimum_ram: u32,
}

impl AppHeader<'_> {
    /// Where the application starts, for an object at an address.
    pub fn start(&self, object: Addr) -> AppStart
        ensures { result ≡ start_by object (shown self.now.header) self.now.main }
    {
        start_after(object, self.header.header_size, &self.main)
    }

    /// The first address after the header and the protected bytes, for an object at an address: the
    /// sum of it, the header's size and the protected size, which does not wrap (Tock Binary
    /// Format, "Main").
    pub fn after_protected(&self, object: Addr) -> u64
        ensures { result ≡ after_protected object (shown self.now.header) self.now.main }
    {
        sum(object, self.header.header_size, self.main.protected)
    }

    /// The start of accessible flash, for an object at an address: the first address after the
    /// header and the protected bytes, rounded up to a multiple of 4. It does not wrap.
    pub fn accessible_start(&self, object: Addr) -> u64
        ensures { result ≡ accessible_start object (shown self.now.header) self.now.main }
    {
        rounded_sum(object, self.header.header_size, self.main.protected)
    }

    /// The end of accessible flash, for an object at an address: the object's end, or with a
    /// Program TLV the binary's end rounded up to a multiple of 4 (Tock Binary Format, "Program").
    /// It does not wrap.
    pub fn accessible_end(&self, object: Addr) -> u64
        ensures { result ≡ accessible_end_of object (shown self.now.header) self.now.main }
    {
        match self.main.binary_end {
            None => sum(object, self.header.total_size, 0),
            Some(binary_end) => rounded_sum(object, binary_end, 0),
        }
    }
}

/// Where an application starts, by its object's address, its header's size and its Program or Main
/// TLV.
pub(crate) fn start_after(object: Addr, header_size: u32, main: &Main) -> AppStart
    ensures { result ≡ record {
      entry = object + header_size + main.now.init;
      after_protected = object + header_size + main.now.protected;
      minimum_ram = main.now.minimum_ram;
    } }
{
    AppStart {
        entry: sum(object, header_size, main.init),
        after_protected: sum(object, header_size, main.protected),
        minimum_ram: main.minimum_ram,
    }
}

/// The sum of three numbers, which does not wrap.
pub(crate) fn sum(a: u32, b: u32, c: u32) -> u64
    ensures { result ≡ a + b + c }
{
    u64::from(a) + u64::from(b) + u64::from(c)
}

/// The sum of three numbers, which does not wrap, rounded up to a multiple of 4.
fn rounded_sum(a: u32, b: u32, c: u32) -> u64
    ensures { result ≡ rounded_up (a + b + c) }
{
    sum(a, b, c).next_multiple_of(4)
}

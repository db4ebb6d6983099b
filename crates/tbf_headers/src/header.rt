//! The header of an object.
ghost use Rattle.std.specs.Prelude.{◌≡◌, ◌*◌, ◌%◌, ◌<◌, ◌≤◌, length, Err, None, IsOk, IsSome};
ghost use Rattle.std.specs.Prelude.{IfSome, IfOk, option_map, option_and_then, MatchResult};
ghost use Rattle.std.specs.Option.{option_copied};
ghost use Rattle.tbf_headers.specs.Addresses.{entry_of, start_by};
ghost use Rattle.tbf_headers.specs.Numbers.{word_at};
ghost use Rattle.tbf_headers.specs.Tlv.{content};
ghost use Rattle.tbf_headers.specs.Parts.{first_bad};
ghost use Rattle.tbf_headers.specs.Meaning.{header_reading, meaning_of, region_in, region_count};
ghost use Rattle.tbf_headers.specs.Meaning.{main_of, program_or_main};
ghost use Rattle.tbf_headers.specs.Parts.{program_of, fixed_of};
ghost use Rattle.tbf_headers.specs.Shown.{shown, shown_result, permissions_shown, regions_of};
ghost use Rattle.tbf_headers.specs.Shown.{IsChecked, IsSized};

use crate::app::{AppHeader, AppStart, start_after, sum};
use crate::fault::HeaderFault;
use crate::numbers::{checksum_of, half_at, word_at};
use crate::perms::Perms;
use crate::program::Main;
use crate::regions::Regions;
use crate::tlv::{FIXED, MAIN, NAME, PERMISSIONS, PROGRAM, REGIONS, content_of, first_bad_tlv};
use tk_base::Addr;

/// The header of an object. It borrows the object's bytes. Of a type that stands there more than
/// once the first TLV counts.
#[derive(Clone, Copy, Debug)]
pub struct Header<'a> {
    /// The size of the header, in bytes.
    pub header_size: u32,
    /// The size of the object, in bytes, with its header.
    pub total_size: u32,
    /// Bit 0: the application is enabled. Bit 1: it is sticky.
    pub flags: u32,
    /// What the Program TLV says, or else the Main TLV.
    pub main: Option<Main>,
    /// The RAM start and the flash start that the application is linked for, 0xFFFFFFFF for none.
    pub fixed: Option<(u32, u32)>,
    name: Option<&'a [u8]>,
    regions: Option<Regions<'a>>,
    perms: Option<Perms<'a>>,
}

impl<'a> Header<'a> {
    /// The header as that of an application. None where it has neither a Program nor a Main TLV, as
    /// that of padding.
    pub fn app(&self) -> Option<AppHeader<'a>>
        ensures main { option_map (λ a. a.main) result ≡ self.now.main }
        ensures header { IfSome result (λ a. shown a.header ≡ shown self.now) }
    {
        let main = self.main?;
        Some(AppHeader {
            header: *self,
            main,
        })
    }

    /// The address of the application's first instruction, for an object at an address: the sum of
    /// it, the header's size and the init offset, which does not wrap (Tock Binary Format, "Main").
    /// It asks that the header is that of an application: it has a Program or a Main TLV.
    pub fn entry(&self, object: Addr) -> u64
        requires { IsSome self.now.main }
        ensures { IfSome self.now.main (λ m. result ≡ entry_of object (shown self.now) m) }
    {
        let Some(main) = self.main else {
            unreachable!()
        };
        sum(object, self.header_size, main.init)
    }

    /// The bytes of the package's name. None where there is no such TLV.
    pub fn name(&self) -> Option<&'a [u8]>
        ensures { option_copied result ≡ (shown self.now).name }
    {
        self.name
    }

    /// The offset and the size of writeable flash region n, as the header gives them. None where
    /// there is no such TLV, or no region of that number.
    pub fn region(&self, n: u32) -> Option<(u32, u32)>
        ensures { result ≡ option_and_then (region_in n) (shown self.now).regions }
    {
        let regions = self.regions?;
        regions.get(n)
    }

    /// How many writeable flash regions the header names: 0 where there is no such TLV (Tock Binary
    /// Format, "Writeable Flash Regions").
    pub fn region_count(&self) -> u32
        ensures { result ≡ region_count (shown self.now).regions }
    {
        count_of(self.regions)
    }

    /// The permissions. None where there is no such TLV.
    pub fn perms(&self) -> Option<Perms<'a>>
        ensures { option_map permissions_shown result ≡ (shown self.now).permissions }
    {
        self.perms
    }
}

/// What the content of a Program TLV says: that of a Main TLV, and the binary's end.
fn program_from(c: &[u8]) -> Main
    requires { 20 ≤ length c.now }
    ensures { result ≡ program_of c.now }
{
    Main {
        binary_end: Some(word_at(c, 12)),
        ..main_from(c)
    }
}

/// What the content of a Main TLV says.
fn main_from(c: &[u8]) -> Main
    requires { 12 ≤ length c.now }
    ensures { result ≡ main_of c.now }
{
    Main {
        init: word_at(c, 0),
        protected: word_at(c, 4),
        minimum_ram: word_at(c, 8),
        binary_end: None,
    }
}

/// What the Program TLV says, or else the Main TLV.
fn main_in(header: &[u8]) -> Option<Main>
    requires aligned { length header.now % 4 ≡ 0 }
    requires short { length header.now < 65536 }
    requires good { first_bad header.now ≡ None }
    ensures { result ≡ program_or_main (content 9 header.now) (content 1 header.now) }
{
    if let Some(program) = content_of(header, PROGRAM) {
        return Some(program_from(program));
    }
    let main = content_of(header, MAIN)?;
    Some(main_from(main))
}

/// What the TLV with fixed addresses says.
fn fixed_in(header: &[u8]) -> Option<(u32, u32)>
    requires aligned { length header.now % 4 ≡ 0 }
    requires short { length header.now < 65536 }
    requires good { first_bad header.now ≡ None }
    ensures { result ≡ option_map fixed_of (content 5 header.now) }
{
    let c = content_of(header, FIXED)?;
    Some((word_at(c, 0), word_at(c, 4)))
}

/// The regions of the TLV.
fn regions_in(header: &[u8]) -> Option<Regions<'_>>
    requires aligned { length header.now % 4 ≡ 0 }
    requires short { length header.now < 65536 }
    requires good { first_bad header.now ≡ None }
    ensures { option_map regions_of result ≡ content 2 header.now }
{
    let c = content_of(header, REGIONS)?;
    Some(Regions::of(c))
}

/// How many regions there are; none where there is no TLV of them.
fn count_of(regions: Option<Regions<'_>>) -> u32
    ensures { result ≡ region_count (option_map regions_of regions.entry) }
{
    match regions {
        None => 0,
        Some(regions) => regions.count(),
    }
}

/// The permissions of the TLV.
fn perms_in(header: &[u8]) -> Option<Perms<'_>>
    requires aligned { length header.now % 4 ≡ 0 }
    requires short { length header.now < 65536 }
    requires good { first_bad header.now ≡ None }
    ensures { option_map permissions_shown result ≡ content 6 header.now }
{
    let c = content_of(header, PERMISSIONS)?;
    Some(Perms::of(c))
}

/// The bytes of a header whose sizes and checksum are right.
#[tactic(auto, unfolding(crate::specs::Meaning::header_reading))]
fn checked_header(object: &[u8]) -> Result<&[u8], HeaderFault>
    ensures { MatchResult result (λ h. IsChecked object.now h.now)
        (λ fault. header_reading object.now ≡ Err fault) }
{
    if object.len() < 16 {
        return Err(HeaderFault::Short);
    }
    if half_at(object, 0) != 2 {
        return Err(HeaderFault::Version);
    }
    let header_size = usize::from(half_at(object, 2));
    let total_size = word_at(object, 4) as usize;
    if total_size == 0
        || total_size > object.len()
        || total_size % 4 != 0
        || header_size < 16
        || header_size > total_size
        || header_size % 4 != 0
    {
        return Err(HeaderFault::Sizes);
    }
    let header = &object[..header_size];
    if word_at(object, 12) != checksum_of(header) {
        return Err(HeaderFault::Checksum);
    }
    Ok(header)
}

/// Reads the header at the start of an object's bytes, or tells its first fault, in the order of
/// [`HeaderFault`]'s variants.
pub fn read_header(object: &[u8]) -> Result<Header<'_>, HeaderFault>
    ensures read { shown_result result ≡ header_reading object.now }
    ensures sized { IfOk result (λ h. IsSized object.now h) }
{
    let header = checked_header(object)?;
    if let Some(at) = first_bad_tlv(header) {
        return Err(HeaderFault::Tlv(at as u32));
    }
    Ok(fields(object, header))
}

/// The fields of a header in which no TLV is bad.
#[tactic(auto, unfolding(crate::specs::Meaning::meaning_of))]
fn fields<'a>(object: &[u8], header: &'a [u8]) -> Header<'a>
    requires checked { IsChecked object.now header.now }
    requires good { first_bad header.now ≡ None }
    ensures shown { shown result ≡ meaning_of object.now }
    ensures sized { IsSized object.now result }
{
    Header {
        header_size: u32::from(half_at(object, 2)),
        total_size: word_at(object, 4),
        flags: word_at(object, 8),
        main: main_in(header),
        fixed: fixed_in(header),
        name: content_of(header, NAME),
        regions: regions_in(header),
        perms: perms_in(header),
    }
}

/// The bytes of the header of an object whose header has no fault.
#[tactic(auto, using(crate::proofs::Known::known))]
fn known_header(object: &[u8]) -> &[u8]
    requires { IsOk (header_reading object.now) }
    ensures checked { IsChecked object.now result.now }
    ensures good { first_bad result.now ≡ None }
{
    &object[..usize::from(half_at(object, 2))]
}

/// The permissions in the header of an object, as [`Header::perms`] of [`read_header`] gives them.
/// It looks at nothing else in the header, which is known to have no fault.
#[tactic(auto, unfolding(crate::specs::Meaning::meaning_of))]
pub fn permissions_in(object: &[u8]) -> Option<Perms<'_>>
    requires { IsOk (header_reading object.now) }
    ensures { IfOk (header_reading object.now)
        (λ h. option_map permissions_shown result ≡ h.permissions) }
{
    perms_in(known_header(object))
}

/// Where the application of an object starts that stands at an address, as [`AppHeader::start`] of
/// [`read_header`] gives it. None where there is neither a Program nor a Main TLV. It looks at
/// nothing else in the header, which is known to have no fault.
#[tactic(auto, unfolding(crate::specs::Meaning::meaning_of))]
pub fn start_in(object: &[u8], at: Addr) -> Option<AppStart>
    requires { IsOk (header_reading object.now) }
    ensures { IfOk (header_reading object.now)
        (λ h. result ≡ option_map (start_by at h) h.main) }
{
    let main = main_in(known_header(object))?;
    let header_size = u32::from(half_at(object, 2));
    Some(start_after(at, header_size, &main))
}

/// How many writeable flash regions the header of an object names, as [`Header::region_count`] of
/// [`read_header`] gives it. It looks at nothing else in the header, which is known to have no
/// fault.
#[tactic(auto, unfolding(crate::specs::Meaning::meaning_of))]
pub fn region_count_in(object: &[u8]) -> u32
    requires { IsOk (header_reading object.now) }
    ensures { IfOk (header_reading object.now) (λ h. result ≡ region_count h.regions) }
{
    count_of(regions_in(known_header(object)))
}

/// The offset and the size of writeable flash region n in the header of an object, as
/// [`Header::region`] of [`read_header`] gives them. It looks at nothing else in the header, which
/// is known to have no fault.
#[tactic(auto, unfolding(crate::specs::Meaning::meaning_of))]
pub fn region_in(object: &[u8], n: u32) -> Option<(u32, u32)>
    requires { IsOk (header_reading object.now) }
    ensures { IfOk (header_reading object.now)
        (λ h. result ≡ option_and_then (region_in n) h.regions) }
{
    let regions = regions_in(known_header(object))?;
    regions.get(n)
}

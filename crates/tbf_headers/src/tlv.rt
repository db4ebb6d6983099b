//! The TLVs of a header, from place 16 to the header's end.
ghost use Rattle.std.specs.Prelude.{◌≡◌, ◌+◌, ◌%◌, ◌*◌, ◌<◌, ◌≤◌, length, None, IfSome};
ghost use Rattle.std.specs.Option.{option_copied};
ghost use Rattle.tbf_headers.specs.Numbers.{half};
ghost use Rattle.tbf_headers.specs.Tlv.{is_bad, first_of, content, least_length};
ghost use Rattle.tbf_headers.specs.Parts.{first_bad};
ghost use Rattle.tbf_headers.specs.Parts.{place_after};

use crate::numbers::half_at;

/// The type of a TLV with the init offset, the protected size and the minimum RAM size.
pub const MAIN: u16 = 1;
/// The type of a TLV with the writeable flash regions.
pub const REGIONS: u16 = 2;
/// The type of a TLV with the package's name.
pub const NAME: u16 = 3;
/// The type of a TLV with fixed addresses.
pub const FIXED: u16 = 5;
/// The type of a TLV with permissions.
pub const PERMISSIONS: u16 = 6;
/// The type of a TLV that takes precedence over Main.
pub const PROGRAM: u16 = 9;

/// The shortest content of a TLV of a type.
fn least_length_of(kind: u16) -> usize
    ensures { result ≡ least_length kind }
{
    match kind {
        MAIN => 12,
        FIXED => 8,
        PROGRAM => 20,
        PERMISSIONS => 2,
        _ => 0,
    }
}

/// Whether the TLV at a place is bad: its content passes the header's end, or is too short for its
/// type or for the entries that it counts.
fn is_bad_at(header: &[u8], at: usize) -> bool
    requires { at + 4 ≤ length header.now }
    ensures { result ≡ is_bad header.now at }
{
    let kind = half_at(header, at);
    let size = usize::from(half_at(header, at + 2));
    if size > header.len() - at - 4 || size < least_length_of(kind) {
        return true;
    }
    kind == PERMISSIONS && size < 2 + 16 * usize::from(half_at(header, at + 4))
}

/// Where the TLV after the one at a place stands.
fn place_after_at(header: &[u8], at: usize) -> usize
    requires start { at + 4 ≤ length header.now }
    requires short { length header.now < 65536 }
    ensures { result ≡ place_after header.now at }
{
    at + 4 + usize::from(half_at(header, at + 2)).next_multiple_of(4)
}

/// The place of the first TLV that is bad.
pub fn first_bad_tlv(header: &[u8]) -> Option<usize>
    requires aligned { length header.now % 4 ≡ 0 }
    requires short { length header.now < 65536 }
    ensures place { result ≡ first_bad header.now }
    ensures short { IfSome result (λ at. at < 65536) }
{
    let mut at = 16;
    while at < header.len() {
        if is_bad_at(header, at) {
            return Some(at);
        }
        at = place_after_at(header, at);
    }
    None
}

/// The place of the first TLV of a type.
pub fn first_tlv(header: &[u8], kind: u16) -> Option<usize>
    requires aligned { length header.now % 4 ≡ 0 }
    requires short { length header.now < 65536 }
    ensures place { result ≡ first_of kind header.now }
    ensures within { IfSome result (λ at. at + 4 ≤ length header.now) }
{
    let mut at = 16;
    while at < header.len() {
        if half_at(header, at) == kind {
            return Some(at);
        }
        at = place_after_at(header, at);
    }
    None
}

/// The content of the first TLV of a type, in a header with no bad TLV.
pub fn content_of(header: &[u8], kind: u16) -> Option<&[u8]>
    requires aligned { length header.now % 4 ≡ 0 }
    requires short { length header.now < 65536 }
    requires good { first_bad header.now ≡ None }
    ensures content { option_copied result ≡ content kind header.now }
    ensures long { IfSome result (λ c. least_length kind ≤ length c.now) }
    ensures short { IfSome result (λ c. length c.now < 65536) }
    ensures counted { kind ≡ 6 → IfSome result (λ c. 2 + 16 * half c.now 0 ≤ length c.now) }
{
    let at = first_tlv(header, kind)?;
    let start = at + 4;
    let end = start + usize::from(half_at(header, at + 2));
    Some(&header[start..end])
}

//! What is said of one object.
ghost use Rattle.std.specs.Prelude.{◌≡◌};
ghost use Rattle.tbf_headers.specs.Meaning.{header_reading};
ghost use Rattle.tbf_headers.specs.Shown.{shown};
ghost use Rattle.flash_walk.specs.Image.{has_bad_entry, app_verdict, verdict_of};
ghost use Rattle.flash_walk.specs.Parts.{is_bad_binary_end, is_outside_flash, is_wrong_flash};

use crate::found::Verdict;
use tbf_headers::{AppHeader, read_header};
use tk_base::Addr;

/// Whether the binary's end passes the object, or stands before the end of the protected bytes.
fn is_bad_end(protected_end: u64, total_size: u32, binary_end: Option<u32>) -> bool
    ensures { result ≡ is_bad_binary_end protected_end total_size binary_end }
{
    match binary_end {
        None => false,
        Some(end) => end > total_size || u64::from(end) < protected_end,
    }
}

/// Whether the entry is outside of accessible flash.
fn is_entry_outside(object: Addr, app: &AppHeader<'_>) -> bool
    ensures { result ≡ is_outside_flash object (shown app.now.header) app.now.main }
{
    let entry = app.header.entry(object);
    entry < app.accessible_start(object) || entry >= app.accessible_end(object)
}

/// Whether the header with the protected bytes passes the object, the binary's end is bad, or the
/// entry is odd or outside of accessible flash.
fn is_bad_entry(object: Addr, app: &AppHeader<'_>) -> bool
    ensures { result ≡ has_bad_entry object (shown app.now.header) app.now.main }
{
    let protected_end = app.after_protected(0);
    let total_size = app.header.total_size;
    protected_end > u64::from(total_size)
        || is_bad_end(protected_end, total_size, app.main.binary_end)
        || app.header.entry(object) % 2 == 1
        || is_entry_outside(object, app)
}

/// Whether there is a fixed flash start other than the address that the application stands at.
fn is_elsewhere(linked: u64, fixed: Option<(u32, u32)>) -> bool
    ensures { result ≡ is_wrong_flash linked fixed }
{
    match fixed {
        None => false,
        Some((_, flash_start)) => flash_start != 0xffff_ffff && u64::from(flash_start) != linked,
    }
}

/// The first verdict that fits an application.
fn verdict_on_app(object: Addr, app: &AppHeader<'_>) -> Verdict
    ensures { result ≡ app_verdict object (shown app.now.header) app.now.main }
{
    if app.header.flags % 2 == 0 {
        return Verdict::Disabled;
    }
    if is_bad_entry(object, app) {
        return Verdict::BadEntry;
    }
    if is_elsewhere(app.after_protected(object), app.header.fixed) {
        return Verdict::WrongFlash;
    }
    Verdict::App
}

/// The first verdict that fits the bytes of an object at an address.
pub fn verdict_on(bytes: &[u8], object: Addr) -> Verdict
    ensures { result ≡ verdict_of object (header_reading bytes.now) }
{
    match read_header(bytes) {
        Err(fault) => Verdict::Bad(fault),
        Ok(header) => match header.app() {
            None => Verdict::Padding,
            Some(app) => verdict_on_app(object, &app),
        },
    }
}

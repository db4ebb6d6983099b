//! What an application asks for.
ghost use Rattle.std.specs.Prelude.{◌≡◌, ◌+◌, ◌%◌, ◌≤◌, length, IfSome};
ghost use Rattle.tbf_headers.specs.Shown.{shown};
ghost use Rattle.flash_walk.specs.Image.{app_verdict, IsObject};
ghost use Rattle.flash_walk.specs.declared.found.Verdict.TheVariants.{App};
ghost use Rattle.app_placement.specs.Applications.{application_of, application};
ghost use Rattle.app_placement.specs.Parts.{fixed_start};
ghost use Rattle.app_placement.specs.Placement.{IsAccessible};

use flash_walk::{Found, Verdict};
use tbf_headers::{AppHeader, object_at, read_header};
use tk_base::{Addr, FLASH_LIMIT, FLASH_START};

/// What an application asks for, by its header.
#[derive(Clone, Copy, Debug, PartialEq, Eq)]
pub struct Application {
    /// Where its object begins, in bytes from the start of flash.
    pub offset: u32,
    /// The first byte of its accessible flash.
    pub flash_from: Addr,
    /// The end of its accessible flash.
    pub flash_to: Addr,
    /// How many bytes of RAM it needs at least.
    pub minimum_ram: u32,
    /// The RAM start that it is linked for.
    pub fixed_start: Option<Addr>,
}

/// The fixed RAM start, where there is one.
fn fixed_start_of(fixed: Option<(u32, u32)>) -> Option<Addr>
    ensures { result ≡ fixed_start fixed }
{
    match fixed {
        None => None,
        Some((ram_start, _)) => {
            if ram_start == 0xffff_ffff {
                None
            } else {
                Some(ram_start)
            }
        }
    }
}

/// What an application at a place in flash asks for.
fn application_from(offset: u32, app: &AppHeader<'_>) -> Application
    requires place { offset + app.now.header.total_size ≤ FLASH_LIMIT }
    requires aligned { offset % 4 ≡ 0 }
    requires whole { app.now.header.total_size % 4 ≡ 0 }
    requires app { app_verdict (FLASH_START + offset) (shown app.now.header) app.now.main ≡ App }
    ensures application { result ≡ application offset (shown app.now.header) app.now.main }
    ensures accessible { IsAccessible offset app.now.header.total_size
        result.flash_from result.flash_to }
{
    let object = FLASH_START + offset;
    let from = app.accessible_start(object);
    let to = app.accessible_end(object);
    Application {
        offset,
        flash_from: from as u32,
        flash_to: to as u32,
        minimum_ram: app.main.minimum_ram,
        fixed_start: fixed_start_of(app.header.fixed),
    }
}

/// What an object that was found asks for, if it is an application.
pub(crate) fn application_at(flash: &[u8], object: &Found) -> Option<Application>
    requires short { length flash.now ≤ FLASH_LIMIT }
    requires object { IsObject flash.now object.now }
    ensures application { result ≡ application_of flash.now object.now }
    ensures accessible { IfSome result (λ app. (app.offset ≡ object.now.offset)
        × IsAccessible object.now.offset object.now.size app.flash_from app.flash_to) }
{
    if object.verdict != Verdict::App {
        return None;
    }
    match read_header(object_at(flash, object.offset, object.size)) {
        Err(_) => None,
        Ok(header) => {
            let app = header.app()?;
            Some(application_from(object.offset, &app))
        }
    }
}

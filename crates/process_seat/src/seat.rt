//! What the kernel keeps of the process in one slot, beside its block.
ghost use Rattle.std.specs.Prelude.{◌≡◌, ◌+◌, ◌≤◌, length};
ghost use Rattle.tk_base.specs.declared.access.TheConstants.{FLASH_START};
ghost use Rattle.process_layout.specs.Bounds.{bounds_of};
ghost use Rattle.process_model.specs.Flash.{HasObject};
ghost use Rattle.process_seat.specs.Places.{has_permissions};
ghost use Rattle.process_seat.specs.Seats.{first_seat};

use process_layout::Layout;
use process_model::{Footprint, Object};
use tbf_headers::{object_at, read_header};
use tk_base::FLASH_START;
use upcall_queue::Inbox;

/// Whether the header of an object in flash has a Permissions TLV (Tock Binary Format,
/// "Permissions").
fn has_permissions(flash: &[u8], object: &Object) -> bool
    requires from { FLASH_START ≤ object.now.address }
    requires to { object.now.address + object.now.size ≤ FLASH_START + length flash.now }
    ensures { result ≡ has_permissions flash.now object.now }
{
    match read_header(object_at(flash, object.address - FLASH_START, object.size)) {
        Ok(header) => header.perms().is_some(),
        Err(_) => false,
    }
}

/// A process's place in memory, what is scheduled for it, and what is counted of it.
#[derive(Drop)]
pub struct Seat {
    /// Its object in flash.
    pub object: Object,
    /// Where its memory lies.
    pub layout: Layout,
    /// What is scheduled for it.
    pub inbox: Inbox,
    /// Which of its lives it is in: how often it was started again.
    pub life: u32,
    /// Whether it lives.
    pub lives: bool,
    /// Whether the instructions in its flash were decoded.
    pub decoded: bool,
    /// Whether the header of its object has a Permissions TLV: without one no call is looked up
    /// there.
    pub has_permissions: bool,
}

impl Seat {
    /// A process before its first turn, with its object in flash.
    pub fn first(flash: &[u8], footprint: &Footprint) -> Seat
        requires { HasObject (length flash.now) footprint.now.object
            (bounds_of footprint.now.layout) }
        ensures { result ≡ first_seat flash.now footprint.now }
    {
        Seat {
            object: footprint.object,
            layout: footprint.layout,
            inbox: Inbox::new(),
            life: 0,
            lives: true,
            decoded: false,
            has_permissions: has_permissions(flash, &footprint.object),
        }
    }

    /// The same again.
    pub fn copied(&self) -> Seat
        ensures { result ≡ self.now }
    {
        Seat {
            object: self.object,
            layout: self.layout,
            inbox: self.inbox.copied(),
            life: self.life,
            lives: self.lives,
            decoded: self.decoded,
            has_permissions: self.has_permissions,
        }
    }
}

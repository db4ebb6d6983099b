//! Whether the object of a process permits a call (Tock Binary Format, "Permissions").
ghost use Rattle.std.specs.Prelude.{◌≡◌};
ghost use Rattle.kernel_model.specs.Parts.{object_permits};
ghost use Rattle.process_model.specs.Flash.{object_in};
ghost use Rattle.syscall_abi.specs.Forms.{form_of};

use crate::caller::Caller;
use process_restart::object_of;
use syscall_abi::Call;
use syscall_filter::filter;
use tbf_headers::permissions_in;

impl Caller<'_> {
    /// Whether its object permits it a call, under a strict filter or an open one. Only where there
    /// is a Permissions TLV is the header read.
    pub fn is_permitted(&self, call: &Call, strict: bool) -> bool
        ensures { result ≡ object_permits strict
            (object_in self.now.flash self.now.process.object) (form_of call.now) }
    {
        if !self.seat.has_permissions {
            return !(strict && call.driver().is_some());
        }
        let object = object_of(self.memory.flash(), &self.process.object);
        filter(permissions_in(object), strict, call).is_ok()
    }
}

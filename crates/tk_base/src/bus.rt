//! The bus between the processor and what a process may touch.
ghost use Rattle.std.specs.Prelude.{◌≡◌, OnOk, OnErr};
ghost use Rattle.tk_base.specs.Bus.{unless_denied, number_at, written};

use crate::access::{Addr, Rule, Width};

/// The memory that one process sees. An access is permitted or denied as a whole; a denied one
/// changes nothing. Numbers are little endian.
pub trait Bus {
    ghost use Rattle.std.specs.Prelude.{ℕ, List, Option};
    ghost use Rattle.tk_base.specs.declared.access.Access.{Access};
    ghost use Rattle.tk_base.specs.declared.access.Access.TheVariants.{Fetch, Load, Store};
    ghost use Rattle.tk_base.specs.declared.access.Width.{Width};
    ghost use Rattle.tk_base.specs.declared.access.Width.TheVariants.{Half};
    ghost use Rattle.tk_base.specs.declared.access.Rule.{Rule};

    /// Why an access at an address is denied, or that it is permitted.
    ghost denies: { Self → Access → ℕ → Width → Option Rule };

    /// The byte at each address that may be touched.
    ghost bytes: { Self → ℕ → ℕ };

    /// What no access changes, as where the memory lies and whose loan it is.
    ghost frame: { Self → List ℕ };

    /// The instruction parcel at an address.
    fn fetch16(&self, at: Addr) -> Result<u16, Rule>
        ensures { result
            ≡ unless_denied (denies self.now Fetch at Half) (number_at (bytes self.now) at Half) };

    /// The number at an address, not sign-extended.
    fn load(&self, at: Addr, width: Width) -> Result<u32, Rule>
        ensures { result
            ≡ unless_denied (denies self.now Load at width) (number_at (bytes self.now) at width) };

    /// Writes the lowest bytes of a value, as many as the access covers.
    fn store(&mut self, at: Addr, width: Width, value: u32) -> Result<(), Rule>
        ensures answer { result ≡ unless_denied (denies self.old Store at width) tt }
        ensures ok { OnOk result (bytes self.new ≡ written (bytes self.old) at width value) }
        ensures err { OnErr result (bytes self.new ≡ bytes self.old) }
        ensures denies { denies self.new ≡ denies self.old }
        ensures frame { frame self.new ≡ frame self.old };
}

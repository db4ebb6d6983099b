//! Memory that may know instructions before they are fetched.
ghost use Rattle.std.specs.Prelude.{◌≡◌, ◌+◌, ◌*◌, ◌%◌, ◌<◌, ◌≤◌, ◌^◌, IfSome, None};
ghost use Rattle.std.specs.Bool.{OnTrue, OnFalse};
ghost use Rattle.tk_base.specs.declared.access.Access.TheVariants.{Load, Store};
ghost use Rattle.tk_base.specs.Access.{misaligned_first};
ghost use Rattle.tk_base.specs.Bus.{number_at, written};
ghost use Rattle.rv32_entries.specs.Fetched.{TellsFetched};
ghost use Rattle.rv32_entries.specs.Entries.{entry_reach};

use crate::entry::Entry;
use rv32_model::Prefetch;
use tk_base::{Addr, Width};

/// A bus that may have decoded some instructions before: those at the places of the parcels from an address on. Some of
/// its memory may be near: loads and stores there need no look for a rule.
pub trait Predecoded: Prefetch {
    ghost use Rattle.std.specs.Prelude.{ℕ};

    /// The address of the first place.
    ghost start: { Self → ℕ };

    /// How many places there are; none where nothing was decoded.
    ghost count: { Self → ℕ };

    /// The address of the first place, which is even. All places lie in the lower half of the addresses.
    fn start(&self) -> Addr
        ensures start { result ≡ start self.now }
        ensures even { start self.now % 2 ≡ 0 }
        ensures ends { start self.now + 2 * count self.now ≤ 2 ^ 31 };

    /// How many places there are.
    fn count(&self) -> usize
        ensures { result ≡ count self.now };

    /// The instruction at a place, which may be fetched there, or nothing known. The one behind it has a place too,
    /// where it may go on there.
    fn entry(&self, place: usize) -> Entry
        requires { place < count self.now }
        ensures tells { TellsFetched (Self.denies self.now) (Self.bytes self.now)
            (start self.now + 2 * place) result }
        ensures reach { 2 * place + entry_reach result ≤ 2 * count self.now };

    /// The number that a load gives, where the access is near.
    fn load_near(&self, at: Addr, width: Width) -> Option<u32>
        ensures may { IfSome result (λ _. misaligned_first (Self.denies self.now) Load at width ≡ None) }
        ensures number { IfSome result (λ number. number ≡ number_at (Self.bytes self.now) at width) };

    /// Writes the lowest bytes of a value, where the access is near; else it answers false, and does nothing.
    fn store_near(&mut self, at: Addr, width: Width, value: u32) -> bool
        ensures may { OnTrue result (misaligned_first (Self.denies self.old) Store at width ≡ None) }
        ensures stored { OnTrue result (Self.bytes self.new ≡ written (Self.bytes self.old) at width value) }
        ensures same { OnFalse result (Self.bytes self.new ≡ Self.bytes self.old) }
        ensures denies { Self.denies self.new ≡ Self.denies self.old }
        ensures frame { Self.frame self.new ≡ Self.frame self.old }
        ensures start { start self.new ≡ start self.old }
        ensures count { count self.new ≡ count self.old };
}

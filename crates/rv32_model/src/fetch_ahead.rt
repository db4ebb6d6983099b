//! Memory that may have two parcels of an instruction at hand.
ghost use Rattle.std.specs.Prelude.{IfSome};
ghost use Rattle.rv32_model.specs.AtHand.{IsAtHand};

use tk_base::{Addr, Bus};

/// A bus that may have both parcels of an instruction of 32 bits at hand, without looking for a rule.
pub trait Prefetch: Bus {
    /// The two parcels from an address on, the first one in the lower half. None says nothing: each
    /// parcel is to be fetched on its own.
    fn word(&self, at: Addr) -> Option<u32>
        ensures { IfSome result (λ word.
            IsAtHand (Self.denies self.now) (Self.bytes self.now) at word) };
}

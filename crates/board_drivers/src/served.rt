//! Whom device steps serve.
ghost use Rattle.std.specs.Prelude.{◌≡◌};
ghost use Rattle.kernel_model.specs.World.{is_let};
ghost use Rattle.kernel_model.specs.Named.{lane_by};

use tk_base::Slot;

/// Whom device steps serve: all slots, or with time partitions one alone.
#[derive(Clone, Copy, Debug)]
pub struct Served {
    /// The one slot that is served, if it is one alone.
    pub only: Option<Slot>,
}

impl Served {
    /// The lane by which devices serve: the one that there is, or that of the slot that alone is
    /// served.
    #[inline(always)]
    pub fn lane(&self) -> usize
        ensures { result ≡ lane_by self.now.only }
    {
        match self.only {
            None => 0,
            Some(slot) => slot.index(),
        }
    }

    /// Whether a slot is served.
    #[inline(always)]
    pub fn serves(&self, slot: Slot) -> bool
        ensures { result ≡ is_let self.now.only slot }
    {
        match self.only {
            None => true,
            Some(only) => slot == only,
        }
    }
}

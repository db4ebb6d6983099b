//! Any memory, without a parcel at hand.
use rv32_entries::{Entry, Predecoded};
use rv32_model::Prefetch;
use tk_base::{Addr, Bus, Rule, Width};

/// A bus that has nothing at hand: each parcel is fetched on its own.
#[derive(Drop)]
pub struct NothingAhead<'a, B> {
    /// The memory.
    pub bus: &'a mut B,
}

impl<B: Bus> Bus for NothingAhead<'_, B> {
    ghost use Rattle.std.specs.Prelude.{◌∷◌};

    ghost denies = { λ memory. B.denies memory.bus.now };

    ghost bytes = { λ memory. B.bytes memory.bus.now };

    ghost frame = { λ memory. memory.bus.ghost_name ∷ B.frame memory.bus.now };

    #[inline(always)]
    fn fetch16(&self, at: Addr) -> Result<u16, Rule> {
        self.bus.fetch16(at)
    }

    #[inline(always)]
    fn load(&self, at: Addr, width: Width) -> Result<u32, Rule> {
        self.bus.load(at, width)
    }

    #[inline(always)]
    fn store(&mut self, at: Addr, width: Width, value: u32) -> Result<(), Rule> {
        self.bus.store(at, width, value)
    }
}

impl<B: Bus> Prefetch for NothingAhead<'_, B> {
    #[inline(always)]
    fn word(&self, _at: Addr) -> Option<u32> {
        None
    }
}

/// It has one place, of which nothing is known.
impl<B: Bus> Predecoded for NothingAhead<'_, B> {
    ghost start = { λ _. 0 };

    ghost count = { λ _. 1 };

    #[inline(always)]
    fn start(&self) -> Addr {
        0
    }

    #[inline(always)]
    fn count(&self) -> usize {
        1
    }

    #[inline(always)]
    fn entry(&self, _place: usize) -> Entry {
        Entry::Cold
    }

    #[inline(always)]
    fn load_near(&self, _at: Addr, _width: Width) -> Option<u32> {
        None
    }

    #[inline(always)]
    fn store_near(&mut self, _at: Addr, _width: Width, _value: u32) -> bool {
        false
    }
}

//! The count and the sum of what a run prints.
ghost use Rattle.std.specs.Prelude.{◌≡◌, ◌+◌, ◌<◌, ◌^◌, [], length};
ghost use Rattle.tk_outside.specs.Writes.{Writes};
ghost use Rattle.run_text.specs.Parts.{tally_of, tally_line};
ghost use Rattle.run_text.specs.Tallies.{tallying};

use itoa::Buffer;
use tk_outside::{Failed, Sink, put_pieces};

/// How many bytes a run printed, and their sum modulo `2^32`.
#[derive(Clone, Copy, Debug, PartialEq, Eq)]
pub struct Tally {
    pub count: u64,
    pub sum: u32,
}

impl Tally {
    /// Nothing was printed yet.
    pub fn new() -> Tally
        ensures { result ≡ tally_of [] }
    {
        Tally { count: 0, sum: 0 }
    }

    /// Adds bytes that were printed.
    pub fn add(&mut self, bytes: &[u8])
        requires { self.old.count + length bytes.now < 2 ^ 64 }
        ensures { self.new ≡ tallying bytes.now self.old }
    {
        for byte in bytes {
            self.sum = self.sum.wrapping_add(u32::from(*byte));
        }
        self.count += bytes.len() as u64;
    }

    /// Writes both as a line.
    #[tactic(auto, unfolding(crate::specs::Parts::tally_line))]
    pub fn write_line<K: Sink>(self, out: &mut K) -> Result<(), Failed>
        ensures { Writes K.tells out.old out.new (tally_line self) result }
    {
        let mut count = Buffer::new();
        let mut sum = Buffer::new();
        put_pieces(
            out,
            &[
                b"printed ",
                count.format(self.count).as_bytes(),
                b" sum ",
                sum.format(self.sum).as_bytes(),
                b"\n",
            ],
        )
    }
}

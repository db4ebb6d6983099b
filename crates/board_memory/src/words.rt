//! Windows of whole words.
ghost use Rattle.std.specs.Prelude.{◌≡◌, ◌+◌, ◌%◌, ◌<◌, ◌≤◌, ◌^◌};
ghost use Rattle.pmp_regions.specs.Windows.{end_of};
ghost use Rattle.board_memory.specs.Bytes.{AreWords};

use pmp_regions::Extent;
use tk_base::Addr;

/// So many bytes from an address on, of whole words.
#[derive(Clone, Copy)]
pub struct Words {
    /// The address of the first one, a multiple of 4.
    pub start: Addr,
    /// How many bytes they have, a multiple of 4.
    pub size: u32,
}

/// The words of a window that lies in so many bytes from an address on. There are none where it does not, or where it
/// begins within a word.
#[inline(always)]
pub fn words_in(window: Extent, first: Addr, size: usize) -> Words
    requires first { first % 4 ≡ 0 }
    requires ends { first + size < 2 ^ 32 }
    ensures { AreWords first size window.from (end_of window) result.start result.size }
{
    let start = u64::from(window.from);
    let end = start + u64::from(window.length);
    if start % 4 != 0 || start < u64::from(first) || end > u64::from(first) + size as u64 {
        return Words {
            start: first,
            size: 0,
        };
    }
    Words {
        start: start as u32,
        size: ((end - start) / 4 * 4) as u32,
    }
}

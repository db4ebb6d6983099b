//! Where areas lie.
ghost use Rattle.std.specs.Prelude.{◌≡◌, ◌+◌, ◌<◌, ◌≤◌, ◌^◌, length, IfSome};
ghost use Rattle.grant_model.specs.Encoding.{EncodesGrants, decode_grants, area_place, area_of};

use grant_model::{Area, areas_are_found, what_is_laid_is_read_back};
use grant_values::{word_at, words_in_bytes};

/// In which word of the kernel's bytes a driver's area begins. None exactly where the process has
/// not entered the driver.
fn place(kernel: &[u8], driver: u32) -> Option<usize>
    requires laid { EncodesGrants kernel.now }
    ensures { result ≡ area_place driver 0 (decode_grants kernel.now) }
{
    words_in_bytes();
    what_is_laid_is_read_back();
    let total = kernel.len() / 4;
    let mut offset = 0;
    while offset < total {
        if word_at(kernel, offset) == driver {
            return Some(offset);
        }
        offset += word_at(kernel, offset + 1) as usize / 4;
    }
    None
}

/// Where a driver's area lies in the kernel's bytes of a process's block. None exactly where the
/// process has not entered the driver.
pub fn area(kernel: &[u8], driver: u32) -> Option<Area>
    requires laid { EncodesGrants kernel.now }
    requires small { length kernel.now < 2 ^ 32 }
    ensures area { result ≡ area_of driver (decode_grants kernel.now) }
    ensures within { IfSome result (λ a. a.offset + a.cost ≤ length kernel.now) }
{
    words_in_bytes();
    areas_are_found();
    let at = place(kernel, driver)?;
    Some(Area {
        offset: 4 * at as u32,
        cost: word_at(kernel, at + 1),
    })
}

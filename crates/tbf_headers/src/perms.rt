//! Which commands an application may give.
ghost use Rattle.std.specs.Prelude.{◌≡◌, ◌+◌, ◌*◌, ◌<◌, ◌≤◌, length};
ghost use Rattle.tbf_headers.specs.Numbers.{half};

use crate::numbers::{double_at, half_at, word_at};

/// The permissions of an application (Tock Binary Format, "Permissions"). It borrows the content
/// of the TLV.
#[derive(Clone, Copy, Debug)]
pub struct Perms<'a> {
    content: &'a [u8],
    ghost counted: { 2 + 16 * half content.now 0 ≤ length content.now },
}

impl<'a> Perms<'a> {
    ghost use Rattle.tbf_headers.specs.Permissions.{allows, lists};
    ghost use Rattle.tbf_headers.specs.Shown.{permissions_shown};

    /// The permissions of a TLV's content.
    pub(crate) fn of(content: &'a [u8]) -> Perms<'a>
        requires { 2 + 16 * half content.now 0 ≤ length content.now }
        ensures { permissions_shown result ≡ content.now }
    {
        Perms { content }
    }

    /// Whether some entry permits a command of a driver: the entry is of the driver, its offset is
    /// command / 64 and its bit command % 64 is set.
    pub fn allows(&self, driver: u32, command: u32) -> bool
        ensures { result ≡ allows (permissions_shown self.now) driver command }
    {
        let content = self.content;
        let count = usize::from(half_at(content, 0));
        for k in 0..count {
            if permits_at(content, k, driver, command) {
                return true;
            }
        }
        false
    }

    /// Whether some entry is of a driver.
    pub fn lists(&self, driver: u32) -> bool
        ensures { result ≡ lists (permissions_shown self.now) driver }
    {
        let content = self.content;
        let count = usize::from(half_at(content, 0));
        for k in 0..count {
            if word_at(content, 2 + 16 * k) == driver {
                return true;
            }
        }
        false
    }
}

ghost use Rattle.tbf_headers.specs.Permissions.{permits, entry_at};

/// Whether the entry of a number permits a command of a driver.
fn permits_at(content: &[u8], k: usize, driver: u32, command: u32) -> bool
    requires count { half content.now 0 ≤ 65535 }
    requires below { k < half content.now 0 }
    requires counted { 2 + 16 * half content.now 0 ≤ length content.now }
    ensures { result ≡ permits driver command (entry_at content.now k) }
{
    let at = 2 + 16 * k;
    word_at(content, at) == driver
        && word_at(content, at + 4) == command / 64
        && (double_at(content, at + 8) >> (command % 64)) % 2 == 1
}

//! The objects of flash.
ghost use Rattle.std.specs.Prelude.{◌≡◌, ◌+◌, ◌≤◌, length};
ghost use Rattle.tbf_headers.specs.Objects.{object_at};

/// The bytes of an object, by its offset from the start of flash and its size, both in bytes.
pub fn object_at(flash: &[u8], offset: u32, size: u32) -> &[u8]
    requires { offset + size ≤ length flash.now }
    ensures { result.now ≡ object_at flash.now offset size }
{
    let from = offset as usize;
    &flash[from..from + size as usize]
}

ghost use Rattle.std.specs.Prelude.{IsTrue, ◌↔◌};
ghost use Rattle.mbim_services.specs.Paths.{HasPath};

use kit_bytes::{is_utf16, u32_at};

/// Whether a buffer is that of a configuration of the proxy whose path has these bytes in UTF-16. It takes
/// no memory.
pub fn config_path_is(buffer: &[u8], path: &[u8]) -> bool
    ensures { IsTrue result ↔ HasPath buffer.now path.now }
{
    if buffer.len() < 12 {
        return false;
    }
    let offset = u32_at(buffer, 0) as usize;
    let size = u32_at(buffer, 4) as usize;
    if size == 0 {
        return path.is_empty();
    }
    if buffer.len() < offset + size {
        return false;
    }
    let bytes = &buffer[offset..offset + size];
    bytes == path && is_utf16(bytes)
}

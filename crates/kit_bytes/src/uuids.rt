ghost use Rattle.std.specs.Prelude.{◌≡◌, ◌+◌, ◌≤◌, length, slice_range};

use uuid::Uuid;

/// The UUID whose bytes begin at a place, in the order in which they stand.
pub fn uuid_at(bytes: &[u8], at: usize) -> Uuid
    requires { at + 16 ≤ length bytes.now }
    ensures { result ≡ slice_range bytes.now at (at + 16) }
{
    let mut uuid = [0; 16];
    uuid.copy_from_slice(&bytes[at..at + 16]);
    Uuid::from_bytes(uuid)
}

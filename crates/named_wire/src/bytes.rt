//! Numbers in a text of bytes, high-order byte first.

ghost use Rattle.std.specs.Prelude.{◌≡◌, ◌+◌, ◌≤◌, length};
ghost use Rattle.named_wire.specs.Bytes as spec;

/// Returns the number of the eight bytes from `place` on.
pub(crate) fn number_at(bytes: &[u8], place: usize) -> u64
    requires { place + 8 ≤ length bytes.now }
    ensures { result ≡ spec.number_at bytes.now place }
{
    let field = &bytes[place..];
    u64::from_be_bytes([
        field[0], field[1], field[2], field[3], field[4], field[5], field[6], field[7],
    ])
}

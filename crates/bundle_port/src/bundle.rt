//! The format of a bundle.

ghost use Rattle.std.specs.Prelude.{◌≡◌, ◌+◌, ◌++◌, ◌≤◌, length};
ghost use Rattle.arrayvec.specs.ArrayVec.{array_vec_len};
ghost use Rattle.bundle_port.specs.Bundle as spec;

use arrayvec::ArrayVec;
use datagram_port::MAX_DATAGRAM_LEN;

/// The number of bytes of the mark and the version.
pub(crate) const HEAD_LEN: usize = 3;

/// The minimum number of bytes of a part. So a bundle has at most 15 parts, and what somebody without a key makes a
/// node look at is no more than they send.
pub(crate) const MIN_PART_LEN: usize = 32;

/// The maximum number of bytes of a part.
pub(crate) const MAX_PART_LEN: usize = 255;

/// The mark of a bundle, and the version of the format.
pub(crate) const HEAD: [u8; HEAD_LEN] = [0x4f, 0x42, 1];

/// Appends bytes to others.
pub(crate) fn append(bytes: &mut ArrayVec<u8, MAX_DATAGRAM_LEN>, more: &[u8])
    requires { array_vec_len bytes.old + length more.now ≤ 512 }
    ensures { bytes.new.items ≡ bytes.old.items ++ more.now }
{
    let _ = bytes.try_extend_from_slice(more);
}

/// Returns whether a datagram can be a part of a bundle: it has 32 to 255 bytes.
pub(crate) fn is_part(bytes: &[u8]) -> bool
    ensures { result ≡ spec.is_part bytes.now }
{
    bytes.len() >= MIN_PART_LEN && bytes.len() <= MAX_PART_LEN
}

/// Returns whether some bytes can be a bundle, by their length and how they begin.
fn begins_bundle(bytes: &[u8]) -> bool
    ensures { result ≡ spec.begins_bundle bytes.now }
{
    if bytes.len() <= HEAD_LEN || bytes.len() > MAX_DATAGRAM_LEN {
        return false;
    }
    bytes[0] == HEAD[0] && bytes[1] == HEAD[1] && bytes[2] == HEAD[2]
}

/// Returns whether a datagram is a bundle: the mark, the version, and parts with their lengths.
pub fn is_bundle(bytes: &[u8]) -> bool
    ensures { result ≡ spec.is_bundle bytes.now }
{
    if !begins_bundle(bytes) {
        return false;
    }
    let mut place = HEAD_LEN;
    while place < bytes.len() {
        let len = bytes[place] as usize;
        if len < MIN_PART_LEN || bytes.len() - place <= len {
            return false;
        }
        place += 1 + len;
    }
    true
}

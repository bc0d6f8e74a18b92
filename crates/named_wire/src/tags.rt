//! Tags of datagrams.

ghost use Rattle.std.specs.Prelude.{◌≡◌, ◌↔◌, IsTrue};

/// The length of a tag, in bytes.
pub(crate) const TAG_LEN: usize = 16;

/// Returns whether two tags are equal. Compares all bytes, wherever the first difference is.
pub(crate) fn are_equal(left: &[u8; TAG_LEN], right: &[u8; TAG_LEN]) -> bool
    ensures { IsTrue result ↔ (left.now ≡ right.now) }
{
    let mut differing = 0;
    for place in 0..TAG_LEN {
        differing += u32::from(left[place] != right[place]);
    }
    differing == 0
}

//! The last line of a floors file by names: the MAC of all bytes before it under the cluster's own key.

ghost use Rattle.std.specs.Prelude.{◌≡◌, ◌+◌, ◌≤◌, ◌++◌, length};
ghost use Rattle.arrayvec.specs.ArrayVec.{array_vec_len};
ghost use Rattle.token_file.specs.Fields.{lines_of};
ghost use Rattle.floors_file.specs.Sealed.{body_of, body_value, mac_digits, mac_line};

use crate::fault::{FloorsFault, LineFault};
use crate::reading::is_same;
use arrayvec::ArrayVec;
use hmac_core::{Hash, hmac};

/// The length of the line: `mac`, a space, 64 digits and LF.
const MAC_LINE_LEN: usize = 69;

/// Returns the MAC of `body` in lower case hexadecimal digits.
#[tactic(auto, unfolding(crate::specs::Sealed::mac_digits))]
fn mac_digits(key: &[u8], body: &[u8]) -> [u8; 64]
    ensures { result ≡ mac_digits key.now body.now }
{
    let mac = hmac(Hash::Sha256, key, body);
    let mut digits = [0; 64];
    hex::encode_to_slice(mac.as_slice(), &mut digits).unwrap();
    digits
}

/// Appends `bytes`.
fn push_all(line: &mut ArrayVec<u8, MAC_LINE_LEN>, bytes: &[u8])
    requires { array_vec_len line.old + length bytes.now ≤ MAC_LINE_LEN }
    ensures items { line.new.items ≡ line.old.items ++ bytes.now }
    ensures len { array_vec_len line.new ≡ array_vec_len line.old + length bytes.now }
{
    let _ = line.try_extend_from_slice(bytes);
}

/// Returns the line of the MAC of `body`.
pub(crate) fn mac_line(key: &[u8], body: &[u8]) -> ArrayVec<u8, MAC_LINE_LEN>
    ensures { result.items ≡ mac_line key.now body.now }
{
    let mut line = ArrayVec::new();
    push_all(&mut line, b"mac ");
    push_all(&mut line, &mac_digits(key, body));
    push_all(&mut line, b"\n");
    line
}

/// Returns the number of lines of a text, with the part after the last LF.
#[tactic(auto, using(crate::proofs::SealedLemmas::length_lines))]
fn count_lines(text: &[u8]) -> u64
    ensures { result ≡ length (lines_of text.now) }
{
    let ends = text.iter().filter(|byte| **byte == b'\n').count();
    ends as u64 + 1
}

/// Returns the bytes before the last line, if it is their MAC line.
pub(crate) fn body_of<'a>(key: &[u8], text: &'a [u8]) -> Result<&'a [u8], FloorsFault>
    ensures { body_value result ≡ body_of key.now text.now }
{
    let place = text.len().saturating_sub(MAC_LINE_LEN);
    let (body, line) = (&text[..place], &text[place..]);
    if is_same(line, &mac_line(key, body)) {
        Ok(body)
    } else {
        Err(FloorsFault {
            line: count_lines(body),
            kind: LineFault::BadMac,
        })
    }
}

ghost use Rattle.std.specs.Prelude.{◌≡◌, ◌+◌, ◌*◌, ◌<◌, ◌≤◌, ◌++◌, ◌∷◌, [], ℕ, List, length, Option, IsSome, IfOk, replicate};
ghost use Rattle.std.specs.Result.{result_err};
ghost use Rattle.std.specs.List.{filter_map, position_from};
ghost use Rattle.arrayvec.specs.ArrayVec.{array_vec_len};
ghost use Rattle.hex.specs.Hex.{IsBytes};
ghost use Rattle.otp_core.specs.Range.{IsSecret};
ghost use Rattle.secret_text.specs.Base32.{IsWritten, Spells, base32_text, count_refusal, is_bad, padding_len, refusal_of, symbol_of, symbol_value, text_before_padding};
ghost use Rattle.secret_text.specs.Bits.{bits_of, bits_of_each};

use crate::bits::Bits;
use crate::fault::SecretFault;
use arrayvec::ArrayVec;
use otp_core::{MAX_SECRET_LEN, Secret};

/// The maximum number of characters of a secret, for 128 bytes.
const MAX_CHARACTERS: usize = 205;

/// The maximum length of a written text, in bytes.
const MAX_TEXT_LEN: usize = 208;

/// The maximum number of `=` at the end of a text.
const MAX_PADDING: usize = 6;

/// Returns the value of a character, in either case, or None if the byte is not in the alphabet.
fn symbol_value_of(byte: u8) -> Option<u8>
    ensures { result ≡ symbol_value byte }
{
    match byte {
        b'A'..=b'Z' => Some(byte - b'A'),
        b'a'..=b'z' => Some(byte - b'a'),
        b'2'..=b'7' => Some(byte - b'2' + 26),
        _ => None,
    }
}

/// Returns the upper case character of a value.
fn symbol(value: u8) -> u8
    requires { value < 32 }
    ensures { result ≡ symbol_of value }
{
    if value < 26 {
        b'A' + value
    } else {
        b'2' + (value - 26)
    }
}

/// Returns the text before its padding, which is the spaces and up to six `=` at its end.
fn before_padding(text: &[u8]) -> &[u8]
    ensures { result.now ≡ text_before_padding text.now }
{
    let mut front = text;
    let mut padding = 0;
    while let Some((last, rest)) = front.split_last() {
        match *last {
            b' ' => {}
            b'=' if padding < MAX_PADDING => padding += 1,
            _ => break,
        }
        front = rest;
    }
    front
}

/// Returns whether a byte is neither a space nor in the alphabet.
fn is_bad_byte(byte: u8) -> bool
    ensures { result ≡ is_bad byte }
{
    byte != b' ' && symbol_value_of(byte).is_none()
}

/// Returns the place of the first byte that is neither a space nor in the alphabet, or None.
fn first_bad(text: &[u8]) -> Option<usize>
    ensures { result ≡ position_from is_bad 0 text.now }
{
    text.iter().position(|&byte| is_bad_byte(byte))
}

/// Returns the number of characters that have a value.
fn count_values(text: &[u8]) -> usize
    ensures { result ≡ length (filter_map symbol_value text.now) }
{
    text.iter()
        .filter_map(|&byte| symbol_value_of(byte))
        .count()
}

/// Returns the reason why `count` characters are not a secret, or None.
fn count_fault(count: usize) -> Option<SecretFault>
    ensures { result ≡ count_refusal count }
{
    if count == 0 {
        Some(SecretFault::Empty)
    } else if count % 8 == 1 || count % 8 == 3 || count % 8 == 6 {
        Some(SecretFault::BadLength)
    } else if count > MAX_CHARACTERS {
        Some(SecretFault::TooLong)
    } else {
        None
    }
}

/// Reads a secret in base32 (RFC 4648, section 6), in either case.
///
/// Ignores spaces, up to six `=` at the end, and the bits after the last whole byte.
///
/// # Errors
///
/// - Returns `BadCharacter` with the place of the first other byte.
/// - Returns `Empty` if there is no character.
/// - Returns `BadLength` if the characters end within a byte.
/// - Returns `TooLong` if there are more than 205 characters.
pub fn read_base32(text: &[u8]) -> Result<Secret, SecretFault>
    ensures fault { result_err result ≡ refusal_of text.now }
    ensures found { IfOk result (Spells text.now) }
{
    let text = before_padding(text);
    if let Some(place) = first_bad(text) {
        return Err(SecretFault::BadCharacter(place));
    }
    if let Some(fault) = count_fault(count_values(text)) {
        return Err(fault);
    }
    Ok(secret_of(&bytes_of(text)))
}

/// Returns the secret of `bytes`.
fn secret_of(bytes: &[u8]) -> Secret
    requires { IsSecret bytes.now }
    ensures value { result ≡ bytes.now }
    ensures bytes { IsBytes bytes.now }
{
    Secret::new(bytes).unwrap()
}

/// Returns the whole bytes of the characters of a text.
fn bytes_of(text: &[u8]) -> ArrayVec<u8, MAX_SECRET_LEN>
    requires { length (filter_map symbol_value text.now) ≤ MAX_CHARACTERS }
    ensures { (rest : List ℕ) × (length rest < 8)
        × (bits_of_each 5 (filter_map symbol_value text.now) ≡ bits_of_each 8 result.items ++ rest) }
{
    let mut bytes = ArrayVec::new();
    let mut bits = Bits::new();
    for &byte in text {
        let Some(value) = symbol_value_of(byte) else {
            continue;
        };
        push_value(&mut bytes, &mut bits, value);
    }
    bytes
}

/// Takes the five bits of a character. Writes a byte if they complete one.
fn push_value(bytes: &mut ArrayVec<u8, MAX_SECRET_LEN>, bits: &mut Bits, value: u8)
    requires value { value < 32 }
    requires waiting { length bits.old < 8 }
    requires room { 8 * array_vec_len bytes.old + length bits.old + 5 < 8 * 129 }
    ensures bits { bits_of_each 8 bytes.new.items ++ bits.new
        ≡ (bits_of_each 8 bytes.old.items ++ bits.old) ++ bits_of 5 value }
    ensures waiting { length bits.new < 8 }
{
    bits.push(value, 5);
    if bits.len() >= 8 {
        bytes.push(bits.pop(8));
    }
}

/// Returns the number of `=` after the characters of `count` bytes.
fn padding_of(count: usize) -> usize
    ensures { result ≡ padding_len count }
{
    match count % 5 {
        1 => 6,
        2 => 4,
        3 => 3,
        4 => 1,
        _ => 0,
    }
}

/// Takes five bits, and writes their character.
fn push_symbol(text: &mut ArrayVec<u8, MAX_TEXT_LEN>, bits: &mut Bits)
    requires waiting { 5 ≤ length bits.old }
    requires room { array_vec_len text.old < MAX_TEXT_LEN }
    ensures written { (all : List ℕ) → IsWritten text.old.items bits.old all →
        IsWritten text.new.items bits.new all }
    ensures waiting { length bits.new + 5 ≡ length bits.old }
    ensures len { array_vec_len text.new ≡ array_vec_len text.old + 1 }
{
    text.push(symbol(bits.pop(5)));
}

/// Takes the eight bits of a byte, and writes the characters that they complete.
fn push_byte(text: &mut ArrayVec<u8, MAX_TEXT_LEN>, bits: &mut Bits, byte: u8)
    requires waiting { length bits.old < 5 }
    requires room { array_vec_len text.old + 2 ≤ MAX_TEXT_LEN }
    ensures written { (all : List ℕ) → IsWritten text.old.items bits.old all →
        IsWritten text.new.items bits.new (all ++ bits_of 8 byte) }
    ensures waiting { length bits.new < 5 }
{
    bits.push(byte, 8);
    push_symbol(text, bits);
    if bits.len() >= 5 {
        push_symbol(text, bits);
    }
}

/// Writes the remaining bits, followed by zeros, as the last character.
fn finish(text: &mut ArrayVec<u8, MAX_TEXT_LEN>, bits: &mut Bits)
    requires waiting { length bits.old < 5 }
    requires room { array_vec_len text.old < MAX_TEXT_LEN }
    ensures { (all : List ℕ) → IsWritten text.old.items bits.old all
        → (zeros : ℕ) × (zeros < 5) × IsWritten text.new.items [] (all ++ replicate zeros 0) }
{
    let left = bits.len();
    if left > 0 {
        bits.push(0, 5 - left);
        push_symbol(text, bits);
    }
}

/// Writes `count` times `=`.
fn push_padding(text: &mut ArrayVec<u8, MAX_TEXT_LEN>, count: usize)
    requires { array_vec_len text.old + count ≤ MAX_TEXT_LEN }
    ensures { text.new.items ≡ text.old.items ++ replicate count 61 }
{
    for _ in 0..count {
        text.push(b'=');
    }
}

/// Returns the canonical base32 text of a secret (RFC 4648, section 6): upper case, with the padding.
pub fn write_base32(secret: &Secret) -> ArrayVec<u8, MAX_TEXT_LEN>
    ensures text { result.items ≡ base32_text secret.now }
    ensures bytes { IsBytes secret.now }
{
    let bytes = secret.as_slice();
    let mut text = ArrayVec::new();
    let mut bits = Bits::new();
    for &byte in bytes {
        push_byte(&mut text, &mut bits, byte);
    }
    finish(&mut text, &mut bits);
    push_padding(&mut text, padding_of(bytes.len()));
    text
}

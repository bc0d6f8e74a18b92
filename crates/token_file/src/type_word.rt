ghost use Rattle.std.specs.Prelude.{◌≡◌, true, IfSome};
ghost use Rattle.std.specs.Str.{bytes_eq};
ghost use Rattle.token_file.specs.Credential.{is_hash_of};
ghost use Rattle.token_file.specs.TypeWord.{event_type_of, time_type_of, type_of};

use crate::token::Kind;
use hmac_core::Hash;
use otp_core::Digits;

/// The type of a token, which the first field of a line names.
#[derive(Clone, Copy, Debug, PartialEq, Eq)]
pub(crate) struct TokenType {
    pub(crate) kind: Kind,
    pub(crate) digits: Digits,
    pub(crate) hash: Hash,
}

/// Returns whether two words have the same bytes.
fn is_same(word: &[u8], other: &[u8]) -> bool
    ensures { result ≡ bytes_eq word.now other.now }
{
    word == other
}

/// Returns the type that a word names, or None.
pub(crate) fn read_type(word: &[u8]) -> Option<TokenType>
    ensures value { result ≡ type_of word.now }
    ensures hash { IfSome result (λ found. is_hash_of found.kind found.hash ≡ true) }
{
    if let Some(suffix) = word.strip_prefix(b"HOTP/T30".as_slice()) {
        time_type(Kind::Time30, suffix)
    } else if let Some(suffix) = word.strip_prefix(b"HOTP/T60".as_slice()) {
        time_type(Kind::Time60, suffix)
    } else {
        event_type(word)
    }
}

/// Returns the type of the event token that a word names, or None.
fn event_type(word: &[u8]) -> Option<TokenType>
    ensures { result ≡ event_type_of word.now }
{
    let digits = if is_same(word, b"HOTP")
        || is_same(word, b"HOTP/E")
        || is_same(word, b"HOTP/E/6")
    {
        Digits::Six
    } else if is_same(word, b"HOTP/E/7") {
        Digits::Seven
    } else if is_same(word, b"HOTP/E/8") {
        Digits::Eight
    } else {
        return None;
    };
    Some(TokenType {
        kind: Kind::Event,
        digits,
        hash: Hash::Sha1,
    })
}

/// Returns the type of a time token by the suffix of its word after the time step, or None.
fn time_type(kind: Kind, suffix: &[u8]) -> Option<TokenType>
    ensures { result ≡ time_type_of kind suffix.now }
{
    let (digits, hash) = if is_same(suffix, b"") || is_same(suffix, b"/6") {
        (Digits::Six, Hash::Sha1)
    } else if is_same(suffix, b"/7") {
        (Digits::Seven, Hash::Sha1)
    } else if is_same(suffix, b"/8") {
        (Digits::Eight, Hash::Sha1)
    } else if is_same(suffix, b"/6/SHA256") {
        (Digits::Six, Hash::Sha256)
    } else if is_same(suffix, b"/7/SHA256") {
        (Digits::Seven, Hash::Sha256)
    } else if is_same(suffix, b"/8/SHA256") {
        (Digits::Eight, Hash::Sha256)
    } else if is_same(suffix, b"/6/SHA512") {
        (Digits::Six, Hash::Sha512)
    } else if is_same(suffix, b"/7/SHA512") {
        (Digits::Seven, Hash::Sha512)
    } else if is_same(suffix, b"/8/SHA512") {
        (Digits::Eight, Hash::Sha512)
    } else {
        return None;
    };
    Some(TokenType { kind, digits, hash })
}

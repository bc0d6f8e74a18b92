ghost use Rattle.std.specs.Prelude.{◌≡◌, [], ◌∷◌, IfSome, IfNone};
ghost use Rattle.std.specs.Option.{option_copied};
ghost use Rattle.client_lines.specs.Codes.{submission_of};
ghost use Rattle.client_lines.specs.Request as spec;
ghost use Rattle.client_lines.specs.Request.{Request, IsLine, Reads, fields_of, given_in};

use crate::answer::{Nonce, is_nonce};
use field_text::{cut_at, is_word};
use otp_core::Code;
use std::marker::Model;

/// The maximum length of a client's line, in bytes with its LF.
pub const MAX_LINE_LEN: usize = 256;

/// The codes of a line: the code of one factor, or the codes of two consecutive factors.
#[derive(Drop, PartialEq, Eq)]
pub enum Codes {
    One(Code),
    Two(Code, Code),
}

/// The request of a client's line.
#[derive(Drop)]
pub struct Line<'a> {
    nonce: &'a [u8],
    user: &'a [u8],
    codes: Codes,
    password: Option<&'a [u8]>,
}

impl<'a> Model for Line<'a> {
    ghost use Rattle.std.specs.Option.{option_copied};
    ghost use Rattle.client_lines.specs.Codes.{submission_of};
    ghost use Rattle.client_lines.specs.Field.{IsNonce};
    ghost use Rattle.client_lines.specs.Request.{Request};

    ghost Value = { Request };

    ghost view = { λ line. record {
      nonce = line.nonce.now;
      user = line.user.now;
      submission = submission_of line.codes;
      password = option_copied line.password;
    } };

    ghost invariant = { λ line. IsNonce line.nonce.now };
}

impl<'a> Line<'a> {
    ghost use Rattle.std.specs.Prelude.{◌≡◌};
    ghost use Rattle.std.specs.Option.{option_copied};
    ghost use Rattle.client_lines.specs.Codes.{submission_of};
    ghost use Rattle.client_lines.specs.Field.{IsNonce};

    /// Returns the nonce, by which the client matches the answer with the line.
    pub fn nonce(&self) -> &'a [u8]
        ensures value { result.now ≡ self.now.nonce }
        ensures range { IsNonce result.now }
    {
        self.nonce
    }

    /// Returns the user whose codes the line submits.
    pub fn user(&self) -> &'a [u8]
        ensures { result.now ≡ self.now.user }
    {
        self.user
    }

    /// Returns the codes.
    pub fn codes(&self) -> &Codes
        ensures { submission_of result.now ≡ self.now.submission }
    {
        &self.codes
    }

    /// Returns the password, or None if the line gives none.
    pub fn password(&self) -> Option<&'a [u8]>
        ensures { option_copied result ≡ self.now.password }
    {
        self.password
    }

    /// Returns the nonce as a value that outlives the line.
    pub fn to_nonce(&self) -> Nonce
        ensures { result ≡ self.now.nonce }
    {
        Nonce::new(self.nonce()).unwrap()
    }
}

/// Returns the text without one LF at its end.
pub fn without_lf(bytes: &[u8]) -> &[u8]
    ensures { result.now ≡ spec.without_lf bytes.now }
{
    if !bytes.is_empty() && bytes[bytes.len() - 1] == b'\n' {
        &bytes[..bytes.len() - 1]
    } else {
        bytes
    }
}

/// Returns the password of a field, or None if it is `-`.
fn given(field: &[u8]) -> Option<&[u8]>
    ensures { option_copied result ≡ given_in field.now }
{
    if field == b"-".as_slice() {
        None
    } else {
        Some(field)
    }
}

/// Returns the line of a CHECK with these fields, or None if a field is not in the grammar.
fn check_line<'a>(
    word: &'a [u8],
    nonce: &'a [u8],
    user: &'a [u8],
    code: &'a [u8],
    password: &'a [u8],
) -> Option<Line<'a>>
    ensures { Reads (word.now ∷ nonce.now ∷ user.now ∷ code.now ∷ password.now ∷ []) result }
{
    if word != b"CHECK".as_slice() || !is_nonce(nonce) || !is_word(user) || !is_word(password) {
        return None;
    }
    let codes = Codes::One(Code::new(code)?);
    let password = given(password);
    Some(Line {
        nonce,
        user,
        codes,
        password,
    })
}

/// Returns the line of a RESYNC with these fields, or None if a field is not in the grammar.
fn resync_line<'a>(
    word: &'a [u8],
    nonce: &'a [u8],
    user: &'a [u8],
    first: &'a [u8],
    second: &'a [u8],
    password: &'a [u8],
) -> Option<Line<'a>>
    ensures { Reads (word.now ∷ nonce.now ∷ user.now ∷ first.now ∷ second.now ∷ password.now ∷ []) result }
{
    if word != b"RESYNC".as_slice() || !is_nonce(nonce) || !is_word(user) || !is_word(password) {
        return None;
    }
    let codes = Codes::Two(Code::new(first)?, Code::new(second)?);
    let password = given(password);
    Some(Line {
        nonce,
        user,
        codes,
        password,
    })
}

/// Returns the line of a text without its LF, or None if it is not in the grammar.
fn read_fields(text: &[u8]) -> Option<Line<'_>>
    ensures { Reads (fields_of text.now) result }
{
    let (word, rest) = cut_at(text, b' ')?;
    let (nonce, rest) = cut_at(rest, b' ')?;
    let (user, rest) = cut_at(rest, b' ')?;
    let (code, rest) = cut_at(rest, b' ')?;
    match cut_at(rest, b' ') {
        None => check_line(word, nonce, user, code, rest),
        Some((second, password)) => match cut_at(password, b' ') {
            None => resync_line(word, nonce, user, code, second, password),
            Some(_) => None,
        },
    }
}

/// Returns the request of a client's line, or None if the line is not in the grammar.
///
/// A line is `CHECK nonce user code password` or `RESYNC nonce user code next-code password`. Fields are separated by
/// one space. One LF may follow.
#[tactic(auto, using(crate::proofs::RequestLemmas::line_read, crate::proofs::RequestLemmas::line_too_long))]
pub fn read_line(bytes: &[u8]) -> Option<Line<'_>>
    // Every line that is read is in the grammar.
    ensures some { IfSome result (IsLine bytes.now) }
    // Every line in the grammar is read.
    ensures none { IfNone result ((request : Request) → IsLine bytes.now request → ⊥) }
    // The reader as a function.
    ensures exact { result ≡ spec.request_at bytes.now }
{
    if bytes.len() > MAX_LINE_LEN {
        return None;
    }
    read_fields(without_lf(bytes))
}

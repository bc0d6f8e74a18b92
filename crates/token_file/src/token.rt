ghost use Rattle.std.specs.Prelude.{◌≡◌, ◌≤◌, ◌↔◌, IsSome, IfSome, IsTrue, length};
ghost use Rattle.token_file.specs.Credential.{is_credential, is_hash_of, is_mark, is_password, period_of};
ghost use Rattle.field_text.specs.Word.{is_word as spec_is_word};

use arrayvec::ArrayVec;
use field_text::is_word;
use hmac_core::Hash;
use otp_core::{Digits, Secret};
use std::fmt;
use std::marker::Model;

/// The maximum length of a user name and of a password, in bytes.
pub const MAX_NAME_LEN: usize = 64;

/// The kind of a token's factors.
#[derive(Clone, Copy, Debug, PartialEq, Eq)]
pub enum Kind {
    /// Events: the factor is a counter.
    Event,
    /// Time steps of 30 seconds.
    Time30,
    /// Time steps of 60 seconds.
    Time60,
}

impl Kind {
    /// Returns the number of seconds of a time step, or None for events.
    pub fn period(self) -> Option<u64>
        ensures value { result ≡ period_of self }
        ensures range { IfSome result (λ seconds. 30 ≤ seconds) }
    {
        match self {
            Kind::Event => None,
            Kind::Time30 => Some(30),
            Kind::Time60 => Some(60),
        }
    }
}

/// The password that a line has to give for a token.
#[derive(Drop, PartialEq, Eq)]
pub enum Password {
    /// No password.
    NoneAllowed,
    /// Any password: it is not checked here.
    NotChecked,
    /// A password of these bytes.
    Equal(ArrayVec<u8, MAX_NAME_LEN>),
}

/// Shows no byte of the password.
impl fmt::Debug for Password {
    fn fmt<W: fmt::Write>(&self, f: &mut fmt::Formatter<W>) -> fmt::Result {
        f.write_str(match self {
            Password::NoneAllowed => "NoneAllowed",
            Password::NotChecked => "NotChecked",
            Password::Equal(_) => "Equal(..)",
        })
    }
}

/// A user's token.
#[derive(Debug, Drop, PartialEq, Eq)]
pub struct Token {
    name: ArrayVec<u8, MAX_NAME_LEN>,
    password: Password,
    secret: Secret,
    kind: Kind,
    digits: Digits,
    hash: Hash,
}

impl Model for Token {
    ghost use Rattle.std.specs.Prelude.{IsTrue};
    ghost use Rattle.token_file.specs.Credential.{Credential, is_credential};

    ghost Value = { Credential };

    ghost view = { λ token. record {
      name = token.name.items;
      password = token.password;
      secret = token.secret;
      kind = token.kind;
      digits = token.digits;
      hash = token.hash;
    } };

    ghost invariant = { λ token. IsTrue (is_credential token.name.items token.password token.kind token.hash) };

    ghost inverse = { λ c. record {
      name = record { items = c.name };
      password = c.password;
      secret = c.secret;
      kind = c.kind;
      digits = c.digits;
      hash = c.hash;
    } };
}

impl Token {
    /// Returns the token of these parts, or None if they don't fit together.
    ///
    /// The name and the password must not be empty, and must have no blank and no LF. The password must not be one of
    /// the marks `-` and `+`. The hash of an event token must be SHA-1.
    pub fn new(
        name: ArrayVec<u8, MAX_NAME_LEN>,
        password: Password,
        secret: Secret,
        kind: Kind,
        digits: Digits,
        hash: Hash,
    ) -> Option<Self>
        ensures valid { IsSome result ↔ IsTrue (is_credential name.items password kind hash) }
        ensures value { IfSome result (λ token. token ≡ record {
          name = name.items;
          password = password;
          secret = secret;
          kind = kind;
          digits = digits;
          hash = hash;
        }) }
    {
        if is_word(&name) && is_password_text(&password) && fits_hash(kind, hash) {
            Some(Token {
                name,
                password,
                secret,
                kind,
                digits,
                hash,
            })
        } else {
            None
        }
    }

    /// States that the parts of every token fit together.
    pub(crate) fn parts_fit(&self)
        ensures { IsTrue (is_credential self.now.name self.now.password self.now.kind self.now.hash) }
    {
        // For the proof: a read of a field states what holds of every token.
        let _kind = self.kind;
    }

    /// Returns the user's name.
    pub fn name(&self) -> &[u8]
        ensures value { result.now ≡ self.now.name }
        ensures word { IsTrue (spec_is_word result.now) }
    {
        &self.name
    }

    /// Returns the password that a line has to give.
    pub fn password(&self) -> &Password
        ensures { result.now ≡ self.now.password }
    {
        &self.password
    }

    /// Returns the secret that the codes are computed with.
    pub fn secret(&self) -> &Secret
        ensures { result.now ≡ self.now.secret }
    {
        &self.secret
    }

    /// Returns the kind of the factors.
    pub fn kind(&self) -> Kind
        ensures { result ≡ self.now.kind }
    {
        self.kind
    }

    /// Returns the number of digits of the codes.
    pub fn digits(&self) -> Digits
        ensures { result ≡ self.now.digits }
    {
        self.digits
    }

    /// Returns the hash that the codes are computed with.
    pub fn hash(&self) -> Hash
        ensures { result ≡ self.now.hash }
    {
        self.hash
    }
}

/// Returns a name or a password as a value.
pub(crate) fn array_of(text: &[u8]) -> ArrayVec<u8, MAX_NAME_LEN>
    requires { length text.now ≤ MAX_NAME_LEN }
    ensures { result.items ≡ text.now }
{
    ArrayVec::try_from(text).unwrap()
}

/// Returns whether a column is one of the marks `-` and `+`.
fn is_mark_text(column: &[u8]) -> bool
    ensures { result ≡ is_mark column.now }
{
    column == b"-".as_slice() || column == b"+".as_slice()
}

/// Returns whether a line can give the password.
fn is_password_text(password: &Password) -> bool
    ensures { result ≡ is_password password.now }
{
    match password {
        Password::NoneAllowed | Password::NotChecked => true,
        Password::Equal(text) => is_word(text) && !is_mark_text(text),
    }
}

/// Returns whether tokens of this kind may have this hash.
fn fits_hash(kind: Kind, hash: Hash) -> bool
    ensures { result ≡ is_hash_of kind hash }
{
    kind != Kind::Event || hash == Hash::Sha1
}

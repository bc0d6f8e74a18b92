ghost use Rattle.std.specs.Prelude.{◌≡◌};
ghost use Rattle.token_names.specs.Seed.{seed_of as spec_seed_of, seed_text as spec_seed_text};

use crate::identity::{MAX_IDENTITY_LEN, kind_text, push_all, push_secret};
use crate::name::NAME_LEN;
use crate::salt::Salt;
use arrayvec::ArrayVec;
use token_file::Token;

/// Returns the text of a token's seed: the word `seed`, the kind and the secret with a TAB between them.
fn seed_text(token: &Token) -> ArrayVec<u8, MAX_IDENTITY_LEN>
    ensures { result.items ≡ spec_seed_text token.now }
{
    let mut text = ArrayVec::new();
    push_all(&mut text, b"seed\t");
    push_all(&mut text, kind_text(token.kind()));
    push_all(&mut text, b"\t");
    push_secret(&mut text, token.secret());
    text
}

/// Returns the seed of a token: the first 16 bytes of the HMAC-SHA-256 of its seed's text under the salt (RFC 2104).
///
/// The tokens of one kind and secret have one seed, whatever their users, passwords, digits and hashes are.
pub fn seed_of(salt: &Salt, token: &Token) -> [u8; NAME_LEN]
    ensures { result ≡ spec_seed_of salt.now token.now }
{
    salt.short_mac(&seed_text(token))
}

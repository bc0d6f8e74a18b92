ghost use Rattle.std.specs.Prelude.{◌≡◌, ◌↔◌, IsSome, IfSome};
ghost use Rattle.token_names.specs.Names.{IsSalt, name_of as spec_name_of, short_mac as spec_short_mac};

use crate::identity::identity_of;
use crate::name::{NAME_LEN, Name};
use arrayvec::ArrayVec;
use field_text::is_word;
use hmac_core::{Hash, Keyed};
use std::marker::Model;
use token_file::{MAX_NAME_LEN, Token};

/// The minimum length of a salt, in bytes.
const MIN_SALT_LEN: usize = 12;

/// A public word of the cluster, of 12 to 64 bytes, under which its tokens have their names.
#[derive(Drop)]
pub struct Salt {
    word: ArrayVec<u8, MAX_NAME_LEN>,
    keyed: Keyed,
}

impl Model for Salt {
    ghost use Rattle.std.specs.Prelude.{ℕ, List};
    ghost use Rattle.hmac_core.specs.Keyed.{IsKeyed};
    ghost use Rattle.hmac_core.specs.declared.hash.Hash.{Hash};
    ghost use Rattle.token_names.specs.Names.{IsSalt};

    ghost Value = { List ℕ };

    ghost view = { λ salt. salt.word.items };

    ghost invariant = { λ salt. IsSalt salt.word.items × IsKeyed salt.keyed Hash.Sha256 salt.word.items };
}

impl Salt {
    /// Returns the salt of a word, or None if it has fewer than 12 or more than 64 bytes, or a blank.
    pub fn new(word: &[u8]) -> Option<Self>
        ensures valid { IsSome result ↔ IsSalt word.now }
        ensures value { IfSome result (λ salt. salt ≡ word.now) }
    {
        if word.len() < MIN_SALT_LEN || !is_word(word) {
            return None;
        }
        let keyed = Keyed::new(Hash::Sha256, word);
        let word = ArrayVec::try_from(word).ok()?;
        Some(Salt { word, keyed })
    }

    /// Returns the word.
    pub fn word(&self) -> &[u8]
        ensures value { result.now ≡ self.now }
        ensures range { IsSalt result.now }
    {
        &self.word
    }

    /// Returns the first 16 bytes of the HMAC-SHA-256 of a text under the word (RFC 2104).
    #[tactic(auto, unfolding(crate::specs::Names::short_mac))]
    pub(crate) fn short_mac(&self, text: &[u8]) -> [u8; NAME_LEN]
        ensures { result ≡ spec_short_mac self.now text.now }
    {
        let mac = self.keyed.mac(text);
        let mut bytes = [0; NAME_LEN];
        bytes.copy_from_slice(&mac.as_slice()[..NAME_LEN]);
        bytes
    }
}

/// Returns the name of a token: the first 16 bytes of the HMAC-SHA-256 of its identity under the salt.
pub fn name_of(salt: &Salt, token: &Token) -> Name
    ensures { result ≡ spec_name_of salt.now token.now }
{
    Name::new(salt.short_mac(&identity_of(token)))
}

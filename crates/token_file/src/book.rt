ghost use Rattle.std.specs.Prelude.{◌≡◌, ◌∷◌, [], ◌++◌, ◌<◌, ◌≤◌, ◌==◌, ◌↔◌, length, slice_get, ◌≢◌, All, Some, None, IsSome, IfSome, IsSomeAnd, IfNone, OnOk, OnErr};
ghost use Rattle.token_file.specs.Credential.{place_of};

use crate::token::{MAX_NAME_LEN, Token, array_of};
use arrayvec::ArrayVec;
use otp_core::MAX_TOKENS;
use std::alloc::{AllocError, Global};
use std::collections::BTreeMap;
use std::marker::Model;

/// The number of a token in a book, from 0. It is below 10,000.
#[derive(Clone, Copy, Debug, PartialEq, Eq, PartialOrd, Ord, Hash)]
pub struct TokenId {
    number: u32,
}

impl Model for TokenId {
    ghost use Rattle.std.specs.Prelude.{ℕ, ◌<◌};

    ghost Value = { ℕ };

    ghost view = { λ id. id.number };

    ghost invariant = { λ id. id.number < 10000 };

    ghost inverse = { λ n. record { number = n } };
}

impl TokenId {
    /// Returns the token with the number `number`, or None from 10,000 on.
    pub fn new(number: u32) -> Option<Self>
        ensures valid { IsSome result ↔ (number < MAX_TOKENS) }
        ensures value { IfSome result (λ id. id ≡ number) }
    {
        if (number as usize) < MAX_TOKENS {
            Some(TokenId { number })
        } else {
            None
        }
    }

    /// Returns the number of the token.
    pub fn value(self) -> u32
        ensures value { result ≡ self }
        ensures range { result < MAX_TOKENS }
    {
        self.number
    }
}

/// The tokens of a server, at most 10,000, in the order of their rows, with distinct names.
#[derive(Debug, Drop)]
pub struct Book {
    tokens: Vec<Token>,
    index: BTreeMap<ArrayVec<u8, MAX_NAME_LEN>, u32>,
}

impl Model for Book {
    ghost use Rattle.std.specs.Prelude.{List};
    ghost use Rattle.token_file.specs.Credential.{Credential};
    ghost use Rattle.token_file.specs.Book.{IsIndexed};

    ghost Value = { List Credential };

    ghost view = { λ book. book.tokens.items };

    ghost invariant = { λ book. IsIndexed book.tokens.items book.index };
}

impl Book {
    /// Returns a book without tokens.
    pub(crate) fn new(alloc: Global) -> Self
        ensures { result ≡ [] }
    {
        Book {
            tokens: Vec::new(alloc),
            index: BTreeMap::new(alloc),
        }
    }

    /// Returns the number of tokens, at most 10,000.
    pub fn len(&self) -> usize
        ensures value { result ≡ length self.now }
        ensures range { result ≤ MAX_TOKENS }
    {
        self.tokens.len()
    }

    /// Returns whether the book has no token.
    pub fn is_empty(&self) -> bool
        ensures { result ≡ (length self.now == 0) }
    {
        self.tokens.is_empty()
    }

    /// Returns the token with the number `id`. `find` returns the number for the token's name.
    pub fn token(&self, id: TokenId) -> &Token
        requires { id < length self.now }
        ensures value { slice_get self.now id ≡ Some result.now }
        ensures own { place_of result.now.name self.now ≡ Some id }
    {
        &self.tokens[id.value() as usize]
    }

    /// Returns the number of the token with the name `name`, or None.
    pub fn find(&self, name: &[u8]) -> Option<TokenId>
        ensures place { result ≡ place_of name.now self.now }
        ensures within { IfSome result (λ id. id < length self.now) }
        ensures found { IfSome result
            (λ id. IsSomeAnd (slice_get self.now id) (λ token. token.name ≡ name.now)) }
        ensures none { IfNone result (All (λ token. token.name ≢ name.now) self.now) }
    {
        self.look_up(name)
    }

    /// Returns the number of the token with the name `name`, or None, by the index.
    fn look_up(&self, name: &[u8]) -> Option<TokenId>
        ensures { result ≡ place_of name.now self.now }
    {
        let index = &self.index;
        if name.len() > MAX_NAME_LEN {
            return None;
        }
        let number = index.get(&array_of(name))?;
        Some(TokenId { number: *number })
    }

    /// Adds a token at the end.
    pub(crate) fn push(&mut self, token: Token) -> Result<(), AllocError>
        requires room { length self.old < MAX_TOKENS }
        requires new { place_of token.name self.old ≡ None }
        ensures ok { OnOk result (self.new ≡ self.old ++ token ∷ []) }
        ensures err { OnErr result (self.new ≡ self.old) }
    {
        let name = array_of(token.name());
        let number = self.tokens.len() as u32;
        self.tokens.push(token)?;
        match self.index.insert(name, number) {
            Ok(_) => Ok(()),
            Err(_) => {
                self.tokens.pop();
                Err(AllocError)
            }
        }
    }
}

ghost use Rattle.std.specs.Prelude.{◌≡◌, ◌≤◌, length};

use crate::settling::text_of;
use arrayvec::ArrayVec;
use client_lines::{Nonce, Reason};
use floor_store::Span;
use otp_core::Drift;
use std::marker::Model;
use token_file::TokenId;
use vote_wire::MAX_SENT_LEN;

/// A kept answer.
#[derive(Debug, Drop)]
pub struct KeptText {
    bytes: ArrayVec<u8, MAX_SENT_LEN>,
}

impl Model for KeptText {
    ghost use Rattle.std.specs.Prelude.{ℕ, List};

    ghost Value = { List ℕ };

    ghost view = { λ text. text.bytes.items };
}

impl KeptText {
    /// Creates an answer of `bytes`.
    pub(crate) fn new(bytes: &[u8]) -> Self
        requires { length bytes.now ≤ 64 }
        ensures { result ≡ bytes.now }
    {
        KeptText {
            bytes: text_of(bytes),
        }
    }

    /// Returns the bytes of the answer.
    pub(crate) fn into_bytes(self) -> ArrayVec<u8, MAX_SENT_LEN>
        ensures { result.items ≡ self }
    {
        self.bytes
    }
}

/// A ruling of the rules on a line (`specs/Rules.antt`).
#[derive(Debug, Drop)]
pub enum Ruling {
    /// The line is outside the grammar. The answer is not kept.
    Outside,
    /// The kept answer is given again.
    Again(KeptText),
    /// The line waits for votes and has no answer yet.
    Waiting,
    /// The line is refused, and nothing changes.
    Denied(Nonce, Reason),
    /// The line is refused, and the token has a failure.
    Wrong(Nonce, Reason, TokenId),
    /// The span of the token is proposed. Its acceptance keeps the drift.
    Fitting {
        nonce: Nonce,
        token: TokenId,
        span: Span,
        drift: Drift,
    },
}

ghost use Rattle.std.specs.Prelude.{◌≡◌};

use arrayvec::ArrayVec;
use floor_store::Span;
use std::marker::Model;
use vote_wire::MAX_SENT_LEN;

/// An accepted submission: the events in which it began and was accepted, the node, the token's number, and the span
/// that it used up.
#[derive(Clone, Copy, Debug, PartialEq, Eq)]
pub struct WorldPass {
    pub began: u64,
    pub ended: u64,
    pub node: u8,
    pub token: u32,
    pub span: Span,
}

impl Model for WorldPass {
    ghost use Rattle.floor_store.specs.Records.{span_of};
    ghost use Rattle.otp_core.specs.Acceptance.{Acceptance};

    ghost Value = { Acceptance };

    ghost view = { λ pass. record {
      began = pass.began;
      ended = pass.ended;
      node = pass.node;
      token = pass.token;
      lo = pass.span.lo;
      hi = pass.span.hi;
    } };

    ghost inverse = { λ pass. record {
      began = pass.began;
      ended = pass.ended;
      node = pass.node;
      token = pass.token;
      span = span_of pass.lo pass.hi;
    } };
}

/// A reply to a client: the event and the node that gave it, and its bytes without a line end.
#[derive(Debug, Drop)]
pub struct WorldAnswer {
    pub event: u64,
    pub node: u8,
    pub client: u64,
    pub bytes: ArrayVec<u8, MAX_SENT_LEN>,
}

impl Model for WorldAnswer {
    ghost use Rattle.cluster_sim.specs.World.{Answer};

    ghost Value = { Answer };

    ghost view = { λ answer. record {
      event = answer.event;
      node = answer.node;
      client = answer.client;
      bytes = answer.bytes.items;
    } };
}

/// The report of a run: the acceptances and the replies, each in order, and the number of datagrams sent.
#[derive(Debug, Drop)]
pub struct Report {
    passes: Vec<WorldPass>,
    answers: Vec<WorldAnswer>,
    sent: u64,
}

impl Model for Report {
    ghost use Rattle.cluster_sim.specs.World.{ReportValue};

    ghost Value = { ReportValue };

    ghost view = { λ report. record {
      passes = report.passes.items;
      answers = report.answers.items;
      sent = report.sent;
    } };
}

impl Report {
    /// Creates a report.
    pub(crate) fn new(passes: Vec<WorldPass>, answers: Vec<WorldAnswer>, sent: u64) -> Self
        ensures { result ≡ record { passes = passes.items; answers = answers.items; sent = sent } }
    {
        Report {
            passes,
            answers,
            sent,
        }
    }

    /// Returns the acceptances, in order.
    pub fn passes(&self) -> &[WorldPass]
        ensures { result.now ≡ self.now.passes }
    {
        &self.passes
    }

    /// Returns the replies, in order.
    pub fn answers(&self) -> &[WorldAnswer]
        ensures { result.now ≡ self.now.answers }
    {
        &self.answers
    }

    /// Returns the number of datagrams sent.
    pub fn sent(&self) -> u64
        ensures { result ≡ self.now.sent }
    {
        self.sent
    }
}

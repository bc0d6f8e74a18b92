//! A gate that drains: which lines it turns away, and its own answers to them.

ghost use Rattle.std.specs.Option.{option_map};
ghost use Rattle.std.specs.Prelude.{◌≡◌, Some};
ghost use Rattle.sealed_port.specs.Draining.{busied, busy_answer, gate_busied, gate_drained, turns_away};

use crate::gate::{Gate, Sealed, SealedLine};
use arrayvec::ArrayVec;
use client_lines::{Answer, MAX_ANSWER_LEN, Outcome, Reason, read_line, write_answer, write_reply};

/// Returns the answer of a gate that drains to a line: `BUSY`, or `BADLINE` if the line is not in the grammar.
fn busy_answer(line: &[u8]) -> ArrayVec<u8, MAX_ANSWER_LEN>
    ensures { result.items ≡ busy_answer line.now }
{
    match read_line(line) {
        Some(line) => write_reply(&line.to_nonce(), Outcome::Refused(Reason::Busy)),
        None => write_answer(&Answer::BadLine),
    }
}

impl Gate {
    /// Drains from now on.
    pub(crate) fn drain(&mut self)
        ensures { self.new ≡ gate_drained self.old }
    {
        self.drains = true;
    }

    /// Returns whether the gate turns an opened line away: while it drains, and unless the line waits for its answer.
    pub(crate) fn turns_away(&self, line: &SealedLine<'_>) -> bool
        ensures { result ≡ turns_away self.now (record {
          client = line.now.client;
          moment = line.now.moment;
          tag = line.now.tag;
          line = line.now.line.now;
        }) }
    {
        self.drains && !self.asked.waits(line.client, line.line)
    }

    /// Seals the gate's own answer to a line that it turned away, and forgets the line.
    pub(crate) fn busy(&mut self, line: &SealedLine<'_>) -> Option<Sealed>
        ensures sealed { option_map (λ sealed. record { address = sealed.address; bytes = sealed.bytes.items }) result
            ≡ busied self.old (Some (record {
              client = line.now.client;
              moment = line.now.moment;
              tag = line.now.tag;
              line = line.now.line.now;
            })) }
        ensures gate { self.new ≡ gate_busied self.old (Some (record {
          client = line.now.client;
          moment = line.now.moment;
          tag = line.now.tag;
          line = line.now.line.now;
        })) }
    {
        let answer = busy_answer(line.line);
        self.seal(line.client, &answer)
    }
}

//! The key file of an operator: one line of a clients file.

ghost use Rattle.std.specs.Prelude.{◌≡◌, false, IfErr, IfOk, Ok, Err};
ghost use Rattle.clients_file.specs.Operator.{is_memory_of, operator_of};

use crate::clients::OperatorEntry;
use crate::fault::ClientsFault;
use crate::reading::read_lines;
use std::alloc::Global;
use thiserror::Error;

/// The fault of an operator's key file.
#[derive(Clone, Copy, Debug, PartialEq, Eq, Error)]
pub enum OperatorFault {
    /// A line has a fault, as a line of a clients file.
    #[error("{0}")]
    Line(ClientsFault),
    /// No line names an operator or a reader.
    #[error("NoOperator")]
    NoOperator,
    /// Another line stands beside that of the operator.
    #[error("SurplusLine")]
    SurplusLine,
}

/// Reads the key file of an operator. It has one line `operator NUMBER KEY` or `reader NUMBER KEY`, and beside it only
/// remarks and blank lines.
///
/// # Errors
///
/// - Returns `Line` with the first fault of the first faulty line of a clients file, or with `Memory`.
/// - Returns `NoOperator` if no line names an operator or a reader.
/// - Returns `SurplusLine` if there is another line.
pub fn read_operator(alloc: Global, text: &[u8]) -> Result<OperatorEntry, OperatorFault>
    ensures operator { IfOk result (λ operator. operator_of text.now ≡ Ok operator) }
    ensures fault { IfErr result (λ fault. is_memory_of fault ≡ false → operator_of text.now ≡ Err fault) }
{
    let said = match read_lines(alloc, text) {
        Ok(said) => said,
        Err(fault) => return Err(OperatorFault::Line(fault)),
    };
    said.only_operator()
}

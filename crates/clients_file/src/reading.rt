ghost use Rattle.std.specs.Prelude.{◌≡◌, ◌≤◌, ◌+◌, ◌==◌, false, IfErr, IfOk, Ok, Err, length};
ghost use Rattle.token_file.specs.Fields.{lines_of};
ghost use Rattle.clients_file.specs.ClientsFile.{after_lines, clients_of, clients_value, is_memory, outcome_of};
ghost use Rattle.clients_file.specs.Said.{nothing_said};

use crate::clients::Clients;
use crate::fault::{ClientsFault, LineFault};
use crate::said::Said;
use std::alloc::Global;

/// The maximum length of a clients file, in bytes.
pub const MAX_CLIENTS_LEN: usize = 65_536;

/// Returns whether a byte ends a line.
fn is_line_end(byte: &u8) -> bool
    ensures { result ≡ (byte.now == 10) }
{
    *byte == b'\n'
}

/// Returns the number of the last line of a text, from 1.
fn last_line(text: &[u8]) -> u64
    ensures { result ≡ length (lines_of text.now) }
{
    let mut number = 0;
    for _line in text.split(is_line_end) {
        number += 1;
    }
    number
}

/// Returns the values of all lines of a text.
pub(crate) fn read_lines(alloc: Global, text: &[u8]) -> Result<Said, ClientsFault>
    ensures said { IfOk result (λ said. after_lines 1 nothing_said (lines_of text.now) ≡ Ok said) }
    ensures fault { IfErr result (λ fault. is_memory fault.kind ≡ false →
        after_lines 1 nothing_said (lines_of text.now) ≡ Err (fault.line, fault.kind)) }
{
    let mut said = Said::new(alloc);
    let mut number: u64 = 0;
    for line in text.split(is_line_end) {
        number += 1;
        match said.take_line(line) {
            Ok(()) => {}
            Err(kind) => return Err(ClientsFault { line: number, kind }),
        }
    }
    Ok(said)
}

/// Returns the clients of a text of at most `limit` bytes.
fn read_up_to(alloc: Global, limit: usize, text: &[u8]) -> Result<Clients, ClientsFault>
    ensures clients { IfOk result (λ clients. outcome_of limit text.now ≡ Ok (clients_value clients)) }
    ensures few { IfOk result (λ clients.
        (length clients.clients.items ≤ 64) × (length clients.plain.items ≤ 16)) }
    ensures together { IfOk result (λ clients.
        length clients.clients.items + length clients.operators.items ≤ 64) }
    ensures ahead { IfOk result (λ clients. (1 ≤ clients.ahead) × (clients.ahead ≤ 60)) }
    ensures fault { IfErr result (λ fault. is_memory fault.kind ≡ false →
        outcome_of limit text.now ≡ Err (fault.line, fault.kind)) }
{
    if text.len() > limit {
        return Err(ClientsFault {
            line: last_line(&text[..limit]),
            kind: LineFault::TooLong,
        });
    }
    let said = read_lines(alloc, text)?;
    match said.finish() {
        Ok(clients) => Ok(clients),
        Err(kind) => Err(ClientsFault {
            line: last_line(text),
            kind,
        }),
    }
}

/// Reads a clients file of at most 65,536 bytes.
///
/// # Errors
///
/// - Returns the first fault of the first faulty line.
/// - Returns `NoClient`, with the number of the line after the last LF, if no line names a client or a plain address.
/// - Returns `TooLong` if the text has more than 65,536 bytes.
/// - Returns `Memory` if the allocator refuses the memory for a client, an operator or an address. It can come at any
///   of them.
pub fn read_clients(alloc: Global, text: &[u8]) -> Result<Clients, ClientsFault>
    ensures clients { IfOk result (λ clients. clients_of text.now ≡ Ok (clients_value clients)) }
    ensures few { IfOk result (λ clients.
        (length clients.clients.items ≤ 64) × (length clients.plain.items ≤ 16)) }
    ensures together { IfOk result (λ clients.
        length clients.clients.items + length clients.operators.items ≤ 64) }
    ensures ahead { IfOk result (λ clients. (1 ≤ clients.ahead) × (clients.ahead ≤ 60)) }
    ensures fault { IfErr result (λ fault. is_memory fault.kind ≡ false →
        clients_of text.now ≡ Err (fault.line, fault.kind)) }
{
    read_up_to(alloc, MAX_CLIENTS_LEN, text)
}

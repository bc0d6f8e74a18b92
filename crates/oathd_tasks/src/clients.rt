//! Reads a clients file.

ghost use Rattle.std.specs.Prelude.{◌≡◌, ◌≤◌, length, IfErr, IfOk, Ok};
ghost use Rattle.clients_file.specs.ClientsFile.{clients_of, clients_value};
ghost use Rattle.oathd_tasks.specs.Clients.{HasClients, IsOfClients, IsOfClientsFile};

use crate::fault::Fault;
use crate::key::file_text;
use clients_file::{Clients, ClientsFault, LineFault, MAX_CLIENTS_LEN, read_clients};
use std::alloc::Global;
use std::rt::Files;

/// Returns the clients that the text of a clients file says.
fn clients_in<'a>(alloc: Global, text: &[u8]) -> Result<Clients, Fault<'a>>
    ensures clients { IfOk result (λ clients. clients_of text.now ≡ Ok (clients_value clients)) }
    ensures ahead { IfOk result (λ clients. (1 ≤ clients.ahead) × (clients.ahead ≤ 60)) }
    ensures fault { IfErr result (IsOfClients text.now) }
{
    match read_clients(alloc, text) {
        Ok(clients) => Ok(clients),
        Err(
            ClientsFault {
                kind: LineFault::Memory,
                ..
            },
        ) => Err(Fault::Run(oathd_lines::Fault::Memory)),
        Err(fault) => Err(Fault::ClientsFile(fault)),
    }
}

/// Returns the clients that the clients file at `path` says.
///
/// # Errors
/// - Returns `CannotReadFile` if the file cannot be opened or read.
/// - Returns `ClientsFile` with the first fault of its text.
/// - Returns `Run(Memory)` if the allocator refuses the memory.
pub fn clients_at<'a, F: Files>(
    alloc: Global,
    files: &F,
    path: &'a str,
) -> Result<Clients, Fault<'a>>
    ensures clients { IfOk result HasClients }
    ensures ahead { IfOk result (λ clients. (1 ≤ clients.ahead) × (clients.ahead ≤ 60)) }
    ensures fault { IfErr result IsOfClientsFile }
{
    let text = file_text(alloc, files, path, MAX_CLIENTS_LEN as u32)?;
    clients_in(alloc, &text)
}

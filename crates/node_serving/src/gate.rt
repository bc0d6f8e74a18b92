//! The lines of clients that a node takes, and the gate for sealed ones.

ghost use Rattle.std.specs.Prelude.{◌≡◌, ◌≤◌, ◌<◌, ◌^◌, IfErr, IfOk};
ghost use Rattle.node_serving.specs.Front.{IsFirstMark, IsFrontFault, IsFrontOf};
ghost use Rattle.node_serving.specs.Gate.{IsSaid, clients_from, gate_from, operators_from};
ghost use Rattle.node_serving.specs.Serving.{AreAgain};

use clients_file::{ClientEntry, Clients, OperatorEntry};
use datagram_port::Clock;
use oathd_database::Fault;
use otp_core::MOMENTS_END;
use replay_window::{Ahead, Window, last_at};
use sealed_port::{Client, Failures, Gate, Operator};
use sealed_wire::ClientKey;
use std::alloc::{AllocError, Global};
use std::time::Clock as TimeSource;
use udp_port::SystemClock;

/// The lines of clients that a node takes.
#[derive(Drop)]
pub enum ClientLines {
    /// Plain lines from any address.
    Anybody,
    /// Plain lines from the addresses of this machine (127.0.0.0/8).
    ThisMachine,
    /// The sealed lines of the clients of a clients file, and plain lines from its plain addresses.
    Of(Clients),
}

/// Returns the same clients.
fn same_entries(alloc: Global, entries: &[ClientEntry]) -> Result<Vec<ClientEntry>, AllocError>
    ensures { IfOk result (λ same. same.items ≡ entries.now) }
{
    let mut same = Vec::with_capacity(alloc, entries.len())?;
    for entry in entries {
        let key = ClientKey::new(entry.key.as_slice()).unwrap();
        let number = entry.number;
        same.push(ClientEntry { number, key })?;
    }
    Ok(same)
}

/// Returns the same operators.
fn same_operators(
    alloc: Global,
    operators: &[OperatorEntry],
) -> Result<Vec<OperatorEntry>, AllocError>
    ensures { IfOk result (λ same. same.items ≡ operators.now) }
{
    let mut same = Vec::with_capacity(alloc, operators.len())?;
    for operator in operators {
        let key = ClientKey::new(operator.key.as_slice()).unwrap();
        let (number, right) = (operator.number, operator.right);
        same.push(OperatorEntry { number, key, right })?;
    }
    Ok(same)
}

impl ClientLines {
    /// Returns the same lines.
    ///
    /// # Errors
    /// Returns `AllocError` if the allocator refuses the memory.
    pub(crate) fn again(&self, alloc: Global) -> Result<Self, AllocError>
        ensures { IfOk result (AreAgain self.now) }
    {
        match self {
            ClientLines::Anybody => Ok(ClientLines::Anybody),
            ClientLines::ThisMachine => Ok(ClientLines::ThisMachine),
            ClientLines::Of(clients) => Ok(ClientLines::Of(Clients {
                clients: same_entries(alloc, &clients.clients)?,
                operators: same_operators(alloc, &clients.operators)?,
                plain: clients.plain.clone()?,
                ahead: clients.ahead,
                failures: clients.failures,
            })),
        }
    }
}

/// Returns the clients, whose windows begin at `mark`.
fn clients_from(
    alloc: Global,
    entries: Vec<ClientEntry>,
    ahead: Ahead,
    mark: u64,
) -> Result<Vec<Client>, Fault>
    ensures clients { IfOk result (λ clients. clients.items ≡ clients_from ahead mark entries.items) }
    ensures fault { IfErr result (λ fault. fault ≡ Fault.Memory) }
{
    entries
        .into_iter()
        .map(|entry| Client::new(entry.number, entry.key, Window::above(mark, ahead)))
        .collect(alloc)
        .map_err(|_| Fault::Memory)
}

/// Returns the operators, whose windows begin at `mark`.
fn operators_from(
    alloc: Global,
    entries: Vec<OperatorEntry>,
    ahead: Ahead,
    mark: u64,
) -> Result<Vec<Operator>, Fault>
    ensures operators { IfOk result (λ operators. operators.items ≡ operators_from ahead mark entries.items) }
    ensures fault { IfErr result (λ fault. fault ≡ Fault.Memory) }
{
    entries
        .into_iter()
        .map(|entry| {
            Operator::new(
                Client::new(entry.number, entry.key, Window::above(mark, ahead)),
                entry.right,
            )
        })
        .collect(alloc)
        .map_err(|_| Fault::Memory)
}

/// Returns the gate before the node `node`, whose windows begin at `mark`.
fn gate_from(
    alloc: Global,
    node: u8,
    clients: Clients,
    ahead: Ahead,
    mark: u64,
) -> Result<Gate, Fault>
    requires { ahead ≡ clients.ahead }
    ensures gate { IfOk result (λ gate. gate ≡ gate_from node mark clients) }
    ensures fault { IfErr result (λ fault. fault ≡ Fault.Memory) }
{
    let known = clients_from(alloc, clients.clients, ahead, mark)?;
    let failures = Failures::new(clients.failures);
    let operators = operators_from(alloc, clients.operators, ahead, mark)?;
    Ok(Gate::new(node, known, operators, clients.plain, failures))
}

/// What stands between a node's socket and its clients.
#[derive(Drop)]
pub enum Front {
    /// Nothing.
    Anybody,
    /// A filter that passes lines from the addresses of this machine (127.0.0.0/8).
    ThisMachine,
    /// A gate for sealed lines.
    Gate(Gate),
}

/// Returns the second at which a process begins.
fn start_second<N: TimeSource>(outside: &N) -> Result<u64, Fault>
    ensures start { IfOk result (λ start. start < 2 ^ 40) }
    ensures fault { IfErr result (λ fault. fault ≡ Fault.NoClock) }
{
    match SystemClock::new(outside).moment() {
        Some(start) if start < MOMENTS_END => Ok(start),
        _ => Err(Fault::NoClock),
    }
}

/// Returns the mark at which the windows of a gate begin: `opened`, or the last moment that may be named now if None.
fn first_mark<N: TimeSource>(opened: Option<u64>, ahead: Ahead, outside: &N) -> Result<u64, Fault>
    ensures mark { IfOk result (IsFirstMark opened ahead) }
    ensures fault { IfErr result (λ fault. fault ≡ Fault.NoClock) }
{
    match opened {
        Some(latest) => Ok(latest),
        None => Ok(last_at(start_second(outside)?, ahead)),
    }
}

/// Returns what stands between the socket of the node `node` and its clients, from now on.
///
/// `opened` is the latest moment of the sealed lines and requests that earlier gates of the process opened, or one
/// after it. None says that nobody knows what was opened before, as at the start of a process. The gate then opens
/// nothing for as long as a moment may be ahead of the clock.
///
/// # Errors
/// - Returns `NoClock` if there is a clients file, `opened` is None and the clock tells no time.
/// - Returns `Memory` if the allocator refuses the memory for the clients.
pub fn front_of<N: TimeSource>(
    alloc: Global,
    node: u8,
    lines: ClientLines,
    opened: Option<u64>,
    outside: &N,
) -> Result<Front, Fault>
    requires said { IsSaid lines }
    ensures front { IfOk result (IsFrontOf node opened lines) }
    ensures fault { IfErr result IsFrontFault }
{
    match lines {
        ClientLines::Anybody => Ok(Front::Anybody),
        ClientLines::ThisMachine => Ok(Front::ThisMachine),
        ClientLines::Of(clients) => {
            let ahead = Ahead::new(clients.ahead).unwrap();
            let mark = first_mark(opened, ahead, outside)?;
            Ok(Front::Gate(gate_from(alloc, node, clients, ahead, mark)?))
        }
    }
}

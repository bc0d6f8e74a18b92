//! A clients file of two clients, and the texts of faults.

use clients_file::{Clients, Right, read_clients};
use std::alloc::Global;
use std::test::Fail;

/// Two clients, an address, the seconds ahead and a limit of failures.
const FILE: &[u8] = b"# two clients\n\
    client 7 000102030405060708090a0b0c0d0e0f\n\
    client 65535 0f0e0d0c0b0a09080706050403020100\n\
    plain 127.0.0.1\n\
    ahead 5\n\
    failures 20\n";

/// Returns whether `clients` is the content of [`FILE`].
fn are_of_file(clients: &Clients) -> bool {
    let ([first, second], [address]) = (clients.clients.as_slice(), clients.plain.as_slice()) else {
        return false;
    };
    first.number == 7
        && first.key.as_slice()[15] == 15
        && second.number == 65_535
        && second.key.as_slice()[15] == 0
        && *address == 0x7f00_0001
        && clients.ahead == 5
        && clients.failures == Some(20)
}

/// A client, an operator and a reader.
const OPERATORS_FILE: &[u8] = b"operator 900 0f0e0d0c0b0a09080706050403020100\n\
    client 7 000102030405060708090a0b0c0d0e0f\n\
    reader 901 0f0e0d0c0b0a09080706050403020101\n";

/// Returns whether `clients` has the operators of [`OPERATORS_FILE`].
fn has_operators(clients: &Clients) -> bool {
    let [operator, reader] = clients.operators.as_slice() else {
        return false;
    };
    operator.number == 900
        && operator.key.as_slice()[15] == 0
        && operator.right == Right::Operator
        && reader.number == 901
        && reader.key.as_slice()[15] == 1
        && reader.right == Right::Reader
}

/// Returns whether a file has the fault with the text.
fn has_fault(alloc: Global, file: &[u8], text: &str) -> Result<bool, Fail> {
    match read_clients(alloc, file) {
        Ok(_) => Ok(false),
        Err(fault) => Ok(format!(in alloc; "{fault}")?.as_str() == text),
    }
}

/// A file of each word is read.
#[test]
fn reads_each_word(rt: HostRuntime) -> Result<(), Fail> {
    let clients = read_clients(rt.alloc(), FILE)?;
    assert!(rt; are_of_file(&clients));
    Ok(())
}

/// A file with operators is read.
#[test]
fn reads_operators(rt: HostRuntime) -> Result<(), Fail> {
    let clients = read_clients(rt.alloc(), OPERATORS_FILE)?;
    assert!(rt; clients.clients.len() == 1);
    assert!(rt; has_operators(&clients));
    Ok(())
}

/// A fault is printed with its line. A key that is another one followed by a zero is the same key.
#[test]
fn prints_a_fault(rt: HostRuntime) -> Result<(), Fail> {
    let alloc = rt.alloc();
    let same_key = b"client 1 000102030405060708090a0b0c0d0e0f\n\
        client 2 000102030405060708090A0B0C0D0E0F00\n";
    assert!(rt; has_fault(alloc, same_key, "line 2: SameKey")?);
    assert!(rt; has_fault(alloc, b"plain 192.0.2.1\n", "line 1: NotLoopback")?);
    assert!(rt; has_fault(alloc, b"", "line 1: NoClient")?);
    Ok(())
}

ghost use Rattle.std.specs.Prelude.{◌≡◌, ◌≤◌, ◌<◌, ◌+◌, IfErr, IfOk, OnOk, Ok, Err, false, length};
ghost use Rattle.token_file.specs.Fields.{fields_of};
ghost use Rattle.clients_file.specs.ClientsFile.{clients_value, finished, is_memory};
ghost use Rattle.clients_file.specs.Operator.{only_operator, says_operators};
ghost use Rattle.clients_file.specs.Said.{after_fields, after_operator, after_word, ahead_of, block_of, client_of, failures_of, has_block, has_number, has_operator, is_remark, new_key, new_number, nothing_said, operators_have, plain_of};

use crate::address::read_loopback;
use crate::clients::{ClientEntry, Clients, OperatorEntry};
use crate::fault::LineFault;
use crate::fields::{key, number_within, one_field, two_fields};
use crate::operator::OperatorFault;
use crate::word::{Word, is_same, read_word};
use sealed_wire::{ClientKey, Right};
use std::alloc::Global;
use std::marker::Model;
use token_file::first_field;

/// The maximum number of clients and operators.
const MAX_CLIENTS: usize = 64;

/// The maximum number of plain addresses.
const MAX_PLAIN: usize = 16;

/// The maximum number of a client or operator.
const MAX_NUMBER: u64 = 65_535;

/// The minimum of the seconds ahead.
const MIN_AHEAD: u64 = 1;

/// The maximum of the seconds ahead.
const MAX_AHEAD: u64 = 60;

/// The seconds ahead of a file without an `ahead` line.
const DEFAULT_AHEAD: u8 = 2;

/// The minimum of a limit of failures.
const MIN_FAILURES: u64 = 1;

/// The maximum of a limit of failures.
const MAX_FAILURES: u64 = 65_535;

/// The length of a block of SHA-256, in bytes.
const BLOCK_LEN: usize = 64;

/// The values of the lines that were read.
#[derive(Drop)]
pub(crate) struct Said {
    clients: Vec<ClientEntry>,
    operators: Vec<OperatorEntry>,
    plain: Vec<u32>,
    ahead: Option<u8>,
    failures: Option<u64>,
}

impl Model for Said {
    ghost use Rattle.std.specs.Prelude.{◌≤◌, ◌+◌, IfSome, length};
    ghost use Rattle.clients_file.specs.Said.{Said};

    ghost Value = { Said };

    ghost view = { λ said. record {
      clients = said.clients.items;
      operators = said.operators.items;
      plain = said.plain.items;
      ahead = said.ahead;
      failures = said.failures;
    } };

    ghost invariant = { λ said.
        (length said.clients.items + length said.operators.items ≤ 64) × (length said.plain.items ≤ 16)
        × IfSome said.ahead (λ seconds. (1 ≤ seconds) × (seconds ≤ 60)) };
}

impl Said {
    /// Returns the values of no line.
    pub(crate) fn new(alloc: Global) -> Self
        ensures { result ≡ nothing_said }
    {
        Said {
            clients: Vec::new(alloc),
            operators: Vec::new(alloc),
            plain: Vec::new(alloc),
            ahead: None,
            failures: None,
        }
    }

    /// Takes a line. After a fault the values are not used again.
    pub(crate) fn take_line(&mut self, line: &[u8]) -> Result<(), LineFault>
        ensures ok { OnOk result (after_fields self.old (fields_of line.now) ≡ Ok self.new) }
        ensures fault { IfErr result (λ fault. is_memory fault ≡ false →
            after_fields self.old (fields_of line.now) ≡ Err fault) }
    {
        let Some((word, rest)) = first_field(line) else {
            return Ok(());
        };
        if is_remark(word) {
            return Ok(());
        }
        match read_word(word) {
            Some(word) => self.take_word(word, rest),
            None => Err(LineFault::UnknownWord),
        }
    }

    /// Takes the fields after a word.
    fn take_word(&mut self, word: Word, rest: &[u8]) -> Result<(), LineFault>
        ensures ok { OnOk result (after_word self.old word (fields_of rest.now) ≡ Ok self.new) }
        ensures fault { IfErr result (λ fault. is_memory fault ≡ false →
            after_word self.old word (fields_of rest.now) ≡ Err fault) }
    {
        match word {
            Word::Client => {
                let client = next_client(&self.clients, &self.operators, rest)?;
                if self.clients.push(client).is_err() {
                    return Err(LineFault::Memory);
                }
            }
            Word::Operator => self.take_operator(Right::Operator, rest)?,
            Word::Reader => self.take_operator(Right::Reader, rest)?,
            Word::Plain => {
                let address = next_plain(&self.plain, rest)?;
                if self.plain.push(address).is_err() {
                    return Err(LineFault::Memory);
                }
            }
            Word::Ahead => self.ahead = Some(new_ahead(self.ahead, rest)?),
            Word::Failures => self.failures = Some(new_failures(self.failures, rest)?),
        }
        Ok(())
    }

    /// Takes the fields of an operator with a right.
    fn take_operator(&mut self, right: Right, rest: &[u8]) -> Result<(), LineFault>
        ensures ok { OnOk result (after_operator self.old right (fields_of rest.now) ≡ Ok self.new) }
        ensures fault { IfErr result (λ fault. is_memory fault ≡ false →
            after_operator self.old right (fields_of rest.now) ≡ Err fault) }
    {
        let ClientEntry { number, key } = next_client(&self.clients, &self.operators, rest)?;
        let operator = OperatorEntry { number, key, right };
        if self.operators.push(operator).is_err() {
            return Err(LineFault::Memory);
        }
        Ok(())
    }

    /// Returns whether the lines say nothing but operators.
    fn says_operators(&self) -> bool
        ensures { result ≡ says_operators self.now }
    {
        self.clients.is_empty()
            && self.plain.is_empty()
            && self.ahead.is_none()
            && self.failures.is_none()
    }

    /// Returns the operator, if the lines say one and nothing else.
    pub(crate) fn only_operator(self) -> Result<OperatorEntry, OperatorFault>
        ensures { result ≡ only_operator self }
    {
        if !self.says_operators() {
            return Err(OperatorFault::SurplusLine);
        }
        let mut operators = self.operators;
        match operators.pop() {
            Some(operator) if operators.is_empty() => Ok(operator),
            Some(_) => Err(OperatorFault::SurplusLine),
            None => Err(OperatorFault::NoOperator),
        }
    }

    /// Returns the clients, after the last line.
    pub(crate) fn finish(self) -> Result<Clients, LineFault>
        ensures ok { IfOk result (λ clients. finished self ≡ Ok (clients_value clients)) }
        ensures few { IfOk result (λ clients.
            (length clients.clients.items ≤ 64) × (length clients.plain.items ≤ 16)) }
        ensures together { IfOk result (λ clients.
            length clients.clients.items + length clients.operators.items ≤ 64) }
        ensures ahead { IfOk result (λ clients. (1 ≤ clients.ahead) × (clients.ahead ≤ 60)) }
        ensures fault { IfErr result (λ fault. finished self ≡ Err fault) }
    {
        let ahead = self.ahead.unwrap_or(DEFAULT_AHEAD);
        let failures = self.failures;
        let operators = self.operators;
        let (clients, plain) = (self.clients, self.plain);
        if clients.is_empty() && plain.is_empty() {
            return Err(LineFault::NoClient);
        }
        Ok(Clients {
            clients,
            operators,
            plain,
            ahead,
            failures,
        })
    }
}

/// Returns whether a word begins a remark.
fn is_remark(word: &[u8]) -> bool
    ensures { result ≡ is_remark word.now }
{
    match word {
        [] => false,
        [first, ..] => *first == b'#',
    }
}

/// Returns whether one of the clients has the number.
fn has_number(number: u16, clients: &[ClientEntry]) -> bool
    ensures { result ≡ has_number number clients.now }
{
    clients.iter().any(|client| client.number == number)
}

/// Returns the key, padded with zeros to a block.
fn block_of(key: &ClientKey) -> [u8; BLOCK_LEN]
    ensures { result ≡ block_of key.now }
{
    let bytes = key.as_slice();
    let mut block = [0; BLOCK_LEN];
    block[..bytes.len()].copy_from_slice(bytes);
    block
}

/// Returns whether one of the clients has a key with the block.
fn has_block(block: &[u8], clients: &[ClientEntry]) -> bool
    ensures { result ≡ has_block block.now clients.now }
{
    clients
        .iter()
        .any(|client| is_same(&block_of(&client.key), block))
}

/// Returns whether one of the operators has the number.
fn has_operator(number: u16, operators: &[OperatorEntry]) -> bool
    ensures { result ≡ has_operator number operators.now }
{
    operators.iter().any(|operator| operator.number == number)
}

/// Returns whether one of the operators has a key with the block.
fn operators_have(block: &[u8], operators: &[OperatorEntry]) -> bool
    ensures { result ≡ operators_have block.now operators.now }
{
    operators
        .iter()
        .any(|operator| is_same(&block_of(&operator.key), block))
}

/// Returns the number of a client or operator, which no other one has.
fn new_number(
    clients: &[ClientEntry],
    operators: &[OperatorEntry],
    text: &[u8],
) -> Result<u16, LineFault>
    ensures { result ≡ new_number clients.now operators.now text.now }
{
    let number = number_within(0, MAX_NUMBER, text)? as u16;
    if has_number(number, clients) {
        return Err(LineFault::Twice);
    }
    if has_operator(number, operators) {
        return Err(LineFault::Twice);
    }
    Ok(number)
}

/// Returns the key of a client or operator, which no other one has.
fn new_key(
    clients: &[ClientEntry],
    operators: &[OperatorEntry],
    text: &[u8],
) -> Result<ClientKey, LineFault>
    ensures { result ≡ new_key clients.now operators.now text.now }
{
    let key = key(text)?;
    if has_block(&block_of(&key), clients) {
        return Err(LineFault::SameKey);
    }
    if operators_have(&block_of(&key), operators) {
        return Err(LineFault::SameKey);
    }
    Ok(key)
}

/// Returns the number and the key that a line adds.
fn next_client(
    clients: &[ClientEntry],
    operators: &[OperatorEntry],
    rest: &[u8],
) -> Result<ClientEntry, LineFault>
    ensures client { result ≡ client_of clients.now operators.now (fields_of rest.now) }
    ensures room { IfOk result (λ _. length clients.now + length operators.now < 64) }
{
    let (number, key) = two_fields(rest)?;
    let number = new_number(clients, operators, number)?;
    let key = new_key(clients, operators, key)?;
    if clients.len() + operators.len() >= MAX_CLIENTS {
        return Err(LineFault::TooMany);
    }
    Ok(ClientEntry { number, key })
}

/// Returns the plain address that a line adds.
fn next_plain(plain: &[u32], rest: &[u8]) -> Result<u32, LineFault>
    ensures address { result ≡ plain_of plain.now (fields_of rest.now) }
    ensures room { IfOk result (λ _. length plain.now < 16) }
{
    let address = read_loopback(one_field(rest)?)?;
    if plain.len() >= MAX_PLAIN {
        return Err(LineFault::TooMany);
    }
    Ok(address)
}

/// Returns the seconds ahead that a line gives.
fn new_ahead(before: Option<u8>, rest: &[u8]) -> Result<u8, LineFault>
    ensures seconds { result ≡ ahead_of before (fields_of rest.now) }
    ensures range { IfOk result (λ seconds. (1 ≤ seconds) × (seconds ≤ 60)) }
{
    let seconds = number_within(MIN_AHEAD, MAX_AHEAD, one_field(rest)?)? as u8;
    if before.is_some() {
        return Err(LineFault::Twice);
    }
    Ok(seconds)
}

/// Returns the limit of failures that a line gives.
fn new_failures(before: Option<u64>, rest: &[u8]) -> Result<u64, LineFault>
    ensures { result ≡ failures_of before (fields_of rest.now) }
{
    let failures = number_within(MIN_FAILURES, MAX_FAILURES, one_field(rest)?)?;
    if before.is_some() {
        return Err(LineFault::Twice);
    }
    Ok(failures)
}

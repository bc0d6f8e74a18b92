ghost use Rattle.std.specs.Prelude.{◌≡◌, IfOk, OnOk, map};
ghost use Rattle.std.specs.Io.KnownBytes.{Appends};
ghost use Rattle.std.specs.List.{flat_map};
ghost use Rattle.cluster_file.specs.Rows.{book_print_of, macs_text, row_mac};

use crate::key::{PRINT_LEN, print_of};
use crate::shared::write_token;
use std::alloc::{AllocError, Global};
use std::io::{self, Write};
use token_file::{Book, Token, TokenId};
use vote_wire::{ClusterKey, tag};

/// The length of the MAC of a row, in bytes.
const MAC_LEN: usize = 16;

/// Returns the MAC of a token's row, an event token's with the counter 0.
fn row_mac(
    alloc: Global,
    shared_key: &ClusterKey,
    token: &Token,
) -> Result<[u8; MAC_LEN], AllocError>
    ensures { IfOk result (λ mac. mac ≡ row_mac shared_key.now token.now) }
{
    let mut row = Vec::new(alloc);
    match write_token(&mut row, token) {
        Ok(()) => Ok(tag(shared_key, &row)),
        Err(_) => Err(AllocError),
    }
}

/// Returns the MACs of a book's rows, in their order.
fn row_macs(
    alloc: Global,
    shared_key: &ClusterKey,
    book: &Book,
) -> Result<Vec<[u8; MAC_LEN]>, AllocError>
    ensures { IfOk result (λ macs. macs.items ≡ map (row_mac shared_key.now) book.now) }
{
    let mut macs = Vec::with_capacity(alloc, book.len())?;
    for row in 0..book.len() as u32 {
        let token = book.token(TokenId::new(row).unwrap());
        macs.push(row_mac(alloc, shared_key, token)?)?;
    }
    Ok(macs)
}

/// Writes MACs one after the other.
fn write_each<W: Write>(writer: &mut W, macs: &[[u8; MAC_LEN]]) -> io::Result<()>
    ensures { OnOk result (Appends (W.contents writer.old) (W.contents writer.new)
        (flat_map (λ mac. mac) macs.now)) }
{
    for mac in macs {
        writer.write_all(mac)?;
    }
    Ok(())
}

/// Writes the word `book` followed by MACs.
fn write_macs<W: Write>(writer: &mut W, macs: &[[u8; MAC_LEN]]) -> io::Result<()>
    ensures { OnOk result (Appends (W.contents writer.old) (W.contents writer.new) (macs_text macs.now)) }
{
    writer.write_all(b"book")?;
    write_each(writer, macs)
}

/// Returns the print of a book's rows, 16 hexadecimal digits that two sites compare.
///
/// Each row is written as in the shared text. The print is of the word `book` and the first 16 bytes of the
/// HMAC-SHA-256 of each row under the shared key, in ascending order. Books with the same rows in another order have
/// the same print (`book_prints_agree`). Equal prints are of the same rows, or MACs collide (`book_prints_tell`).
///
/// # Errors
///
/// - Returns `AllocError` if the allocator refuses the memory.
pub fn book_print(
    alloc: Global,
    shared_key: &ClusterKey,
    book: &Book,
) -> Result<[u8; 2 * PRINT_LEN], AllocError>
    ensures { IfOk result (λ print. print ≡ book_print_of shared_key.now book.now) }
{
    let mut macs = row_macs(alloc, shared_key, book)?;
    macs.sort_unstable();
    let mut text = Vec::new(alloc);
    match write_macs(&mut text, &macs) {
        Ok(()) => Ok(print_of(shared_key, &text)),
        Err(_) => Err(AllocError),
    }
}

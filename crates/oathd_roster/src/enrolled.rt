//! Keeps the rows of a users file whose tokens have rows in a store.

ghost use Rattle.std.specs.Prelude.{◌≡◌, ◌++◌, List, slice_get, IfOk, OnOk};
ghost use Rattle.kept_rows.specs.Kept.{kept_line};
ghost use Rattle.roster_sql.specs.declared.entry.Entry.{Entry as AnyEntry};
ghost use Rattle.token_file.specs.UsersFile.{is_of_text as spec_is_of_text};
ghost use Rattle.oathd_roster.specs.Enrolled.{AreNamesOf, enrolled_rows as spec_enrolled_rows, is_enrolled as spec_is_enrolled, is_row};

use crate::fault::RosterFault;
use crate::users::read_named_users;
use kept_rows::lines_in;
use oathd_database::Fault;
use otp_core::Settings;
use roster_sql::{Entry, NAME_LEN};
use std::alloc::{AllocError, Global};
use std::collections::BTreeSet;
use token_file::LineFault;
use token_names::Salt;

/// The names of a store's rows.
type RowNames = BTreeSet<[u8; NAME_LEN]>;

/// Returns the names of a store's rows.
fn row_names(alloc: Global, roster: &[Entry]) -> Result<RowNames, AllocError>
    ensures { IfOk result (AreNamesOf roster.now) }
{
    let mut names = BTreeSet::new(alloc);
    for entry in roster {
        names.insert(entry.name)?;
    }
    Ok(names)
}

/// Returns whether a row has the name of the first entry, if there is one.
fn has_first(names: &RowNames, entries: &[Entry]) -> bool
    ensures { (roster : List AnyEntry) → AreNamesOf roster names.now
        → result ≡ is_row roster (slice_get entries.now 0) }
{
    match entries.first() {
        Some(entry) => names.contains(&entry.name),
        None => false,
    }
}

/// Returns whether a fault is one of the text.
fn is_of_text(fault: LineFault) -> bool
    ensures { result ≡ spec_is_of_text fault }
{
    !matches!(fault, LineFault::Read | LineFault::Memory)
}

/// Returns whether a line, if it is read alone, has a token whose name a row has.
fn is_enrolled(
    alloc: Global,
    line: &[u8],
    settings: Settings,
    salt: &Salt,
    names: &RowNames,
) -> Result<bool, AllocError>
    ensures { (roster : List AnyEntry) → AreNamesOf roster names.now
        → IfOk result (λ is. is ≡ spec_is_enrolled salt.now settings roster line.now) }
{
    match read_named_users(alloc, line, settings, 0, salt) {
        Ok(named) => Ok(has_first(names, &named.entries)),
        Err(RosterFault::Command(Fault::Users(fault))) if is_of_text(fault.kind) => Ok(false),
        // A line has one token at most, and is read from memory.
        Err(_) => Err(AllocError),
    }
}

/// Appends a line with its LF if it has a token whose name a row has.
fn keep(
    alloc: Global,
    kept: &mut Vec<u8>,
    line: &[u8],
    settings: Settings,
    salt: &Salt,
    names: &RowNames,
) -> Result<(), AllocError>
    ensures { (roster : List AnyEntry) → AreNamesOf roster names.now → OnOk result (kept.new.items
        ≡ kept.old.items ++ kept_line (spec_is_enrolled salt.now settings roster) line.now) }
{
    if !is_enrolled(alloc, line, settings, salt, names)? {
        return Ok(());
    }
    kept.extend_from_slice(line)?;
    kept.push(b'\n')?;
    Ok(())
}

/// Returns the lines of `text` that have a token whose name a row of the store has, in their order, each with an LF.
///
/// `roster` has the entries of the store's rows, and the tokens have their names under `salt`. Each line is read alone.
///
/// # Errors
/// Fails only if the allocator refuses the memory.
pub fn enrolled_rows(
    alloc: Global,
    text: &[u8],
    settings: Settings,
    salt: &Salt,
    roster: &[Entry],
) -> Result<Vec<u8>, AllocError>
    ensures { IfOk result (λ kept. kept.items ≡ spec_enrolled_rows salt.now settings roster.now text.now) }
{
    let names = row_names(alloc, roster)?;
    let lines = lines_in(alloc, text)?;
    let mut kept = Vec::new(alloc);
    for line in &lines {
        keep(alloc, &mut kept, line, settings, salt, &names)?;
    }
    Ok(kept)
}

//! Reads the users file of a command.

ghost use Rattle.std.specs.Prelude.{IfErr};
ghost use Rattle.otp_core.specs.Range.{IsMoment};
ghost use Rattle.oathd_site.specs.Users.{IsOfUsers};

use crate::fault::Fault;
use oathd_database::read_users;
use otp_core::Settings;
use std::alloc::Global;
use std::fs;
use std::io::{self, ErrorKind, Read};
use std::rt::Files;

/// The maximum length of a users file, in bytes: 16 MiB.
const MAX_USERS_LEN: u64 = 16_777_216;

/// A reader whose reads fail.
#[derive(Drop)]
struct Failing;

impl Read for Failing {
    ghost use Rattle.std.specs.Prelude.{[], Some};

    ghost remaining = { λ _. Some [] };

    fn read(&mut self, _buf: &mut [u8]) -> io::Result<usize> {
        Err(ErrorKind::Other.into())
    }
}

/// Returns the fault of a users file of which only `text` could be read: the first fault of the text, or the failure.
fn cut_off<'a>(
    alloc: Global,
    text: &[u8],
    settings: Settings,
    moment: u64,
    path: &'a str,
) -> Fault<'a>
    requires { IsMoment moment }
    ensures { IsOfUsers settings moment result }
{
    match read_users(alloc, text.chain(Failing), settings, moment) {
        Ok(_) => Fault::Task(oathd_tasks::Fault::CannotReadFile(path)),
        Err(fault) => Fault::Database(fault),
    }
}

/// Returns the text of the users file at `path`, up to the first byte past 16 MiB. The file is read once, so it may be
/// a pipe.
///
/// # Errors
/// - Returns `CannotReadFile` if the file cannot be opened.
/// - Returns `Users` with the first faulty line if a read fails: that of the failure, or one before it.
/// - Returns `Memory` if the allocator refuses the memory.
pub fn users_text<'a, F: Files>(
    alloc: Global,
    files: &F,
    path: &'a str,
    settings: Settings,
    moment: u64,
) -> Result<Vec<u8>, Fault<'a>>
    requires { IsMoment moment }
    ensures { IfErr result (IsOfUsers settings moment) }
{
    let Ok(file) = fs::open(files, path) else {
        return Err(Fault::Task(oathd_tasks::Fault::CannotReadFile(path)));
    };
    let mut text = Vec::new(alloc);
    match file.take(MAX_USERS_LEN + 1).read_to_end(&mut text) {
        Ok(_) => Ok(text),
        Err(error) if error.kind() == ErrorKind::OutOfMemory => {
            Err(Fault::Database(oathd_database::Fault::Memory))
        }
        Err(_) => Err(cut_off(alloc, &text, settings, moment, path)),
    }
}

/// Returns the text of the users file at `path`, as [`users_text`] does, if it has no fault.
///
/// # Errors
/// - Returns the errors of [`users_text`].
/// - Returns `Users` with the first faulty line.
pub fn checked_users_text<'a, F: Files>(
    alloc: Global,
    files: &F,
    path: &'a str,
    settings: Settings,
    moment: u64,
) -> Result<Vec<u8>, Fault<'a>>
    requires { IsMoment moment }
{
    let text = users_text(alloc, files, path, settings, moment)?;
    let _users = read_users(alloc, text.as_slice(), settings, moment)?;
    Ok(text)
}

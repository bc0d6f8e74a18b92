ghost use Rattle.std.specs.Prelude.{◌≡◌};
ghost use Rattle.oathd_causes.specs.Causes.{file_cause_of};

use std::fs;
use std::io::{ErrorKind, Read};
use std::rt::Files;
use thiserror::Error;

/// The reason why a file cannot be read or written.
#[derive(Clone, Copy, Debug, PartialEq, Eq, Error)]
pub enum FileCause {
    #[error("no such file")]
    Missing,
    #[error("is a folder")]
    Folder,
    #[error("no right to it")]
    Denied,
    #[error("its disk takes no writes")]
    ReadOnly,
    #[error("its disk is full")]
    Full,
    #[error("a limit on the size of files is reached")]
    TooLarge,
}

/// Returns the reason for a kind of error, or None for other kinds.
pub fn file_cause_of(kind: ErrorKind) -> Option<FileCause>
    ensures { result ≡ file_cause_of kind }
{
    match kind {
        ErrorKind::NotFound | ErrorKind::NotADirectory => Some(FileCause::Missing),
        ErrorKind::IsADirectory => Some(FileCause::Folder),
        ErrorKind::PermissionDenied => Some(FileCause::Denied),
        ErrorKind::ReadOnlyFilesystem => Some(FileCause::ReadOnly),
        ErrorKind::StorageFull | ErrorKind::QuotaExceeded => Some(FileCause::Full),
        ErrorKind::FileTooLarge => Some(FileCause::TooLarge),
        _ => None,
    }
}

/// Returns the reason why the file at `path` cannot be read now, or None if it can or has another reason.
pub fn file_cause<F: Files>(files: &F, path: &str) -> Option<FileCause> {
    let mut first = [0];
    match fs::open(files, path) {
        Ok(mut file) => match file.read(&mut first) {
            Ok(_) => None,
            Err(error) => file_cause_of(error.kind()),
        },
        Err(error) => file_cause_of(error.kind()),
    }
}

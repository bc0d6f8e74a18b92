//! Says what to do about a file that cannot be read or written, by what it is for.

ghost use Rattle.std.specs.Prelude.{◌≡◌};
ghost use Rattle.std.specs.Option.{option_map};
ghost use Rattle.std.specs.Str.{bytes_eq};
ghost use Rattle.oathd_causes.specs.Remedies.{file_remedy as spec_file_remedy, is_path, role_among};

use crate::file::FileCause;
use thiserror::Error;

/// What a file is for.
#[derive(Clone, Copy, Debug, PartialEq, Eq)]
pub enum FileRole {
    Database,
    Users,
    Cluster,
    Key,
    Clients,
    Floors,
}

/// What to do about a file that cannot be read or written.
#[derive(Clone, Copy, Debug, PartialEq, Eq, Error)]
pub enum FileRemedy {
    #[error("mount its disk or mend the path; oathd init is for a node that never served, init --lost for a lost one")]
    FindDatabase,
    #[error("mend the path")]
    MendPath,
    #[error("give its full path, or copy the key of another member")]
    FindKey,
    #[error("mend the path, or write it: a line client NUMBER KEY for each client")]
    WriteClients,
    #[error("mend the path, or take it by oathd floors")]
    TakeFloors,
    #[error("name the file")]
    NameFile,
    #[error("let the user of oathd read it")]
    LetRead,
    #[error("run the command as the user who owns it and its -wal file")]
    RunAsOwner,
    #[error("mount it for writing")]
    MountToWrite,
    #[error("make room, and try again: nothing that got OK is lost")]
    MakeRoom,
    #[error("raise it (ulimit -f), and try again: nothing that got OK is lost")]
    RaiseLimit,
}

/// Returns what to do about a file that is not there.
fn missing_remedy(role: FileRole) -> FileRemedy
    ensures { result ≡ spec_file_remedy role FileCause.Missing }
{
    match role {
        FileRole::Database => FileRemedy::FindDatabase,
        FileRole::Users | FileRole::Cluster => FileRemedy::MendPath,
        FileRole::Key => FileRemedy::FindKey,
        FileRole::Clients => FileRemedy::WriteClients,
        FileRole::Floors => FileRemedy::TakeFloors,
    }
}

/// Returns what to do about a file, by the reason why it cannot be read or written.
pub fn file_remedy(role: FileRole, cause: FileCause) -> FileRemedy
    ensures { result ≡ spec_file_remedy role cause }
{
    match cause {
        FileCause::Missing => missing_remedy(role),
        FileCause::Folder => FileRemedy::NameFile,
        FileCause::Denied => match role {
            FileRole::Database => FileRemedy::RunAsOwner,
            _ => FileRemedy::LetRead,
        },
        FileCause::ReadOnly => FileRemedy::MountToWrite,
        FileCause::Full => FileRemedy::MakeRoom,
        FileCause::TooLarge => FileRemedy::RaiseLimit,
    }
}

/// Returns whether two texts have the same bytes.
fn is_same(text: &str, other: &str) -> bool
    ensures { result ≡ bytes_eq text.now other.now }
{
    text.as_bytes() == other.as_bytes()
}

/// Returns whether `name` is there, and is `path`.
fn is_path(name: Option<&str>, path: &str) -> bool
    ensures { result ≡ is_path (option_map (λ name. name.now) name.entry) path.now }
{
    match name {
        Some(name) => is_same(name, path),
        None => false,
    }
}

/// Returns what the file at `path` is for, by the paths of the other files, in the order in which a command reads them.
/// The floors files are the last.
pub(crate) fn role_among(
    cluster: Option<&str>,
    key: Option<&str>,
    clients: Option<&str>,
    users: &str,
    path: &str,
) -> FileRole
    ensures { result ≡ role_among (option_map (λ name. name.now) cluster.entry)
        (option_map (λ name. name.now) key.entry) (option_map (λ name. name.now) clients.entry) users.now path.now }
{
    if is_path(cluster, path) {
        FileRole::Cluster
    } else if is_path(key, path) {
        FileRole::Key
    } else if is_path(clients, path) {
        FileRole::Clients
    } else if is_same(users, path) {
        FileRole::Users
    } else {
        FileRole::Floors
    }
}

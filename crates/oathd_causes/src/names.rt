//! The files, the node and the address that the words of a command over a database name.

use cluster_file::{KeySource, read_cluster};
use oathd_site::FilesBefore;
use oathd_words::{Action, ClientWords, ClusterWords, Owner, Task};
use std::alloc::Global;
use std::net::SocketAddrV4;
use std::str;

/// The files, the node and the address in the words of a command over a database.
#[derive(Clone, Copy)]
pub struct Names<'a> {
    pub(crate) database: &'a str,
    pub(crate) users: &'a str,
    /// The cluster file, if the words name one.
    pub(crate) cluster: Option<&'a str>,
    /// The clients file, if the words name one.
    pub(crate) clients: Option<&'a str>,
    /// The key file, if the words name one.
    key: Option<&'a str>,
    /// The number of the node, if the words have one.
    pub(crate) node: Option<u8>,
    /// The node's address, if the words have it.
    address: Option<SocketAddrV4>,
    /// Whether the command creates the store.
    pub(crate) is_new: bool,
    /// Whether the command gives the tokens of a store names.
    pub(crate) is_naming: bool,
    /// The files of the database before the command, where they are known.
    files: Option<FilesBefore>,
}

/// Returns the path of the key file, or None if the key is given itself.
fn path_in<'a>(key: &KeySource<'a>) -> Option<&'a str> {
    match key {
        KeySource::File(path) => str::from_utf8(path).ok(),
        KeySource::Given(_) => None,
    }
}

/// Returns the address of the member `number`, from 1, or None.
fn member_at(members: &[SocketAddrV4], number: u8) -> Option<SocketAddrV4> {
    members.get(usize::from(number).checked_sub(1)?).copied()
}

impl<'a> Names<'a> {
    /// Returns the paths alone.
    fn new(database: &'a str, users: &'a str, cluster: Option<&'a str>) -> Self {
        Names {
            database,
            users,
            cluster,
            clients: None,
            key: None,
            node: None,
            address: None,
            is_new: false,
            is_naming: false,
            files: None,
        }
    }

    /// Adds the names in `action`.
    fn with_action(self, action: &Action<'a>) -> Self {
        match action {
            Action::Init { node, .. } | Action::Begin { node, .. } | Action::Remake { node, .. } =>
                {
                    Names {
                        node: Some(*node),
                        is_new: true,
                        ..self
                    }
                }
            Action::Serve {
                cluster,
                clients,
                ..
            } => self.with_cluster(cluster).with_clients(*clients),
            Action::Roster { node, .. } | Action::Floors { node, .. } => Names {
                node: Some(*node),
                ..self
            },
            Action::Look { owner, .. } | Action::Level { owner, .. } => Names {
                node: owner.node(),
                ..self
            },
            Action::Migrate { owner, .. } => Names {
                node: owner.node(),
                is_naming: matches!(owner, Owner::Member { .. }),
                ..self
            },
        }
    }

    /// Adds the names in the words about a cluster.
    fn with_cluster(self, cluster: &ClusterWords<'a>) -> Self {
        match cluster {
            ClusterWords::Given {
                place,
                members,
                key,
                ..
            } => Names {
                key: Some(*key),
                node: Some(place.me()),
                address: member_at(members, place.me()),
                ..self
            },
            ClusterWords::Named { node, .. } => Names {
                node: Some(*node),
                ..self
            },
        }
    }

    /// Adds the clients file in the words about clients, if there is one.
    fn with_clients(self, clients: ClientWords<'a>) -> Self {
        match clients {
            ClientWords::Named(path) => Names {
                clients: Some(path),
                ..self
            },
            ClientWords::Anybody | ClientWords::ThisMachine => self,
        }
    }

    /// Returns the names in the words of `task`, which is not yet carried out, or None if it is not over a database.
    pub fn of(rt: &HostRuntime, task: &Task<'a>) -> Option<Self> {
        match task {
            Task::Store {
                database,
                users,
                action,
            } => {
                let names = Names {
                    files: Some(FilesBefore::at(rt, *database)),
                    ..Names::new(*database, *users, task.cluster_path())
                };
                Some(names.with_action(action))
            }
            _ => None,
        }
    }

    /// Returns whether a file of the database stands at its path no more, since the command began.
    pub(crate) fn is_replaced(&self, rt: &HostRuntime) -> bool {
        match self.files {
            Some(files) => files.is_replaced(rt, self.database),
            None => false,
        }
    }

    /// Returns the path of the key file, from the words or from the text of the cluster file, or None.
    pub(crate) fn key_path(&self, alloc: Global, text: &'a [u8]) -> Option<&'a str> {
        if self.key.is_some() {
            return self.key;
        }
        match read_cluster(alloc, text) {
            Ok(cluster) => path_in(&cluster.key),
            Err(_) => None,
        }
    }

    /// Returns the node's address, from the words or from the text of the cluster file, or None.
    pub(crate) fn own_address(&self, alloc: Global, text: &[u8]) -> Option<SocketAddrV4> {
        if self.address.is_some() {
            return self.address;
        }
        let number = self.node?;
        match read_cluster(alloc, text) {
            Ok(cluster) => member_at(&cluster.members, number),
            Err(_) => None,
        }
    }
}

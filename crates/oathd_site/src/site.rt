//! The database and the files of a command.

ghost use Rattle.oathd_database.specs.declared.fault.Fault.TheVariants as database;
ghost use Rattle.std.specs.Prelude.{◌≡◌, ◌<◌, ◌≤◌, None, IfErr, IfOk, Some};
ghost use Rattle.otp_core.specs.Limits.{default_limits};
ghost use Rattle.otp_core.specs.Range.{IsMoment};
ghost use Rattle.oathd_site.specs.Names.{IsKeyOf, IsMemberByNames};
ghost use Rattle.oathd_site.specs.Users.{IsOfUsers};

use crate::fault::Fault;
use crate::names::{NamesFault, named_cluster};
use crate::users::users_text;
use datagram_port::Clock;
use oathd_database::DatabaseFile;
use oathd_roster::NamedCluster;
use oathd_tasks::{cluster_in, cluster_key, member_place};
use otp_core::{MOMENTS_END, Settings};
use sqlite::Start;
use std::alloc::Global;
use std::io::{self, Cursor};
use std::time::Clock as TimeSource;
use udp_port::SystemClock;
use vote_core::Place;
use vote_wire::ClusterKey;

/// Returns the current time.
pub fn present_moment<'a, T: TimeSource>(source: &T) -> Result<u64, Fault<'a>>
    ensures moment { IfOk result IsMoment }
    ensures fault { IfErr result (λ fault. fault ≡ Fault.Database database.NoClock) }
{
    match SystemClock::new(source).moment() {
        Some(moment) if moment < MOMENTS_END => Ok(moment),
        _ => Err(Fault::Database(oathd_database::Fault::NoClock)),
    }
}

/// The database and the files of a command.
#[derive(Clone, Copy)]
pub struct Site<'r, 'a> {
    pub alloc: Global,
    pub rt: &'r HostRuntime,
    /// The path of the database.
    pub database: &'a str,
    /// The path of the users file.
    pub users: &'a str,
    /// The text of the cluster file that the words name.
    pub cluster: &'a [u8],
}

impl<'r, 'a> Site<'r, 'a> {
    /// Returns the database in its file, which has to exist and not be empty.
    pub fn found<S: Start>(&self, start: S) -> DatabaseFile<'_, S> {
        DatabaseFile::found(self.rt, self.database, start)
    }

    /// Returns the text of the users file for an import with `settings` at `moment`.
    pub fn users(&self, settings: Settings, moment: u64) -> Result<Cursor<Vec<u8>>, Fault<'a>>
        requires { IsMoment moment }
        ensures { IfErr result (IsOfUsers settings moment) }
    {
        Ok(Cursor::new(users_text(self.alloc, self.rt, self.users, settings, moment)?))
    }

    /// Returns the text of the users file for a command that imports no floors.
    pub fn users_alone(&self) -> Result<Cursor<Vec<u8>>, Fault<'a>>
        ensures { IfErr result (IsOfUsers default_limits 0) }
    {
        self.users(Settings::default(), 0)
    }

    /// Returns the settings, the place and the names of the member `node` of the cluster.
    pub fn member(&self, node: u8) -> Result<(Settings, Place, NamedCluster), Fault<'a>>
        requires { 1 ≤ node }
        ensures { IfOk result (λ m. IsMemberByNames node self.now.cluster.now m.0 m.1 m.2) }
    {
        let cluster = cluster_in(self.alloc, self.cluster)?;
        let place = member_place(&cluster, node)?;
        let named = named_cluster(&cluster, place.n())?;
        match named {
            Some(named) => Ok((cluster.settings, place, named)),
            None => Err(Fault::Names(NamesFault::NoNames)),
        }
    }

    /// Returns the own key of the cluster.
    pub fn own_key(&self) -> Result<ClusterKey, Fault<'a>>
        ensures { IfOk result (IsKeyOf self.now.cluster.now) }
    {
        let cluster = cluster_in(self.alloc, self.cluster)?;
        let key = cluster_key(self.alloc, self.rt, &cluster.key)?;
        Ok(key)
    }
}

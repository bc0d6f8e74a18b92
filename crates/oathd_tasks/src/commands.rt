ghost use Rattle.std.specs.Prelude.{◌≡◌, ◌⊎◌, Err};
ghost use Rattle.oathd_lines.specs.declared.fault.Fault.TheVariants.{CannotWrite};
ghost use Rattle.oathd_lines.specs.Secret.{EndsWithText};
ghost use Rattle.oathd_tasks.specs.Nodes.{ClusterEndsSo, EndsAsAsked, IsSetupInRange, LinesEndSo, SimEndsSo, setup_value};
ghost use Rattle.oathd_words.specs.Words.{IsInRange};

use crate::asking::{asked, asker, operator_at};
use crate::check::check;
use crate::cluster::cluster_in;
use crate::fault::Fault;
use crate::new_cluster::print_new_cluster;
use crate::new_key::print_new_key;
use crate::secret_input::print_secret_of;
use crate::setup::{NodesSetup, nodes_setup};
use oathd_asking::{AskedNode, inquire, survey};
use oathd_cluster::run_cluster;
use oathd_lines::{print_secret, serve_lines};
use oathd_sim::run_sim;
use oathd_words::Task;
use program_edge::flushed;
use std::alloc::Global;
use std::fs;
use std::io::{Read, Write};
use std::net::Net;
use std::random::RandomSource;
use std::rt::Files;
use std::time::Clock as TimeSource;
use token_file::MAX_FILE_LEN;

/// Answers the lines of the input by a node with this setup.
///
/// `held` buffers the output. It is flushed before the command waits for more input, and at every end.
fn answer_lines<'a, R: Read, O: Write>(
    alloc: Global,
    setup: &NodesSetup,
    reader: &mut R,
    held: &mut O,
) -> Result<(), Fault<'a>>
    requires { IsSetupInRange (setup_value setup.now) }
    ensures ends { LinesEndSo (setup_value setup.now) (R.remaining reader.old) result
        (O.contents held.old) (O.contents held.new) }
{
    let end = serve_lines(
        alloc,
        setup.settings,
        setup.moment,
        &setup.key,
        MAX_FILE_LEN,
        reader,
        held,
    );
    match flushed(held, end) {
        Ok(()) => Ok(()),
        Err(fault) => Err(Fault::Run(fault)),
    }
}

/// Prints a secret in base32. `held` buffers the output. It is flushed at every end.
fn print<O: Write>(hex: &str, held: &mut O) -> Result<(), oathd_lines::Fault>
    ensures ends { (result ≡ Err CannotWrite)
        ⊎ EndsWithText hex.now result (O.contents held.old) (O.contents held.new) }
{
    let end = print_secret(held, hex.as_bytes());
    flushed(held, end)
}

/// Runs the script of the input over nodes with this setup. `held` buffers the output until it is flushed.
fn simulate<'a, R: Read, O: Write>(
    alloc: Global,
    setup: &NodesSetup,
    reader: &mut R,
    held: &mut O,
) -> Result<(), Fault<'a>>
    requires { IsSetupInRange (setup_value setup.now) }
    ensures ends { SimEndsSo (setup_value setup.now) (R.remaining reader.old) result
        (O.contents held.old) (O.contents held.new) }
{
    let end = run_sim(
        alloc,
        setup.nodes,
        setup.settings,
        setup.moment,
        &setup.key,
        MAX_FILE_LEN,
        reader,
        held,
    );
    match end {
        Ok(()) => Ok(()),
        Err(fault) => Err(Fault::Sim(fault)),
    }
}

/// Runs a cluster of nodes with this setup over the users file at the path `users`, and sends it the lines of the
/// input.
///
/// `held` buffers the output until it is flushed.
fn run_nodes<'a, F: Files + Net, R: Read, O: Write>(
    alloc: Global,
    files: &F,
    users: &'a str,
    setup: &NodesSetup,
    reader: &mut R,
    held: &mut O,
) -> Result<(), Fault<'a>>
    requires { IsSetupInRange (setup_value setup.now) }
    ensures ends { ClusterEndsSo setup.now.nodes (R.remaining reader.old) result
        (O.contents held.old) (O.contents held.new) }
{
    let Ok(file) = fs::open(files, users) else {
        return Err(Fault::CannotReadFile(users));
    };
    let end = run_cluster(
        alloc,
        files,
        setup.nodes,
        setup.settings,
        setup.moment,
        &setup.key,
        file,
        MAX_FILE_LEN,
        reader,
        held,
    );
    match end {
        Ok(()) => Ok(()),
        Err(fault) => Err(Fault::Cluster(fault)),
    }
}

/// Carries out a task that needs no database, with the text of the cluster file that it names.
///
/// `held` buffers the output until it is flushed.
///
/// # Errors
/// - Returns `NoDatabases` for a command over a database.
/// - Returns the fault that ends the command.
pub fn perform<'a, F: Files + Net + RandomSource + TimeSource, R: Read, O: Write>(
    alloc: Global,
    files: &F,
    task: &Task<'a>,
    cluster: &'a [u8],
    reader: &mut R,
    held: &mut O,
) -> Result<(), Fault<'a>>
    requires { IsInRange task.now }
    ensures ends { EndsAsAsked task.now cluster.now (R.remaining reader.old) result
        (O.contents held.old) (O.contents held.new) }
{
    match task {
        Task::Lines { nodes, moment } => {
            let setup = nodes_setup(alloc, files, nodes, *moment, cluster)?;
            answer_lines(alloc, &setup, reader, held)
        }
        Task::Sim { nodes, moment } => {
            let setup = nodes_setup(alloc, files, nodes, *moment, cluster)?;
            simulate(alloc, &setup, reader, held)
        }
        Task::Cluster {
            users,
            nodes,
            moment,
        } => {
            let setup = nodes_setup(alloc, files, nodes, *moment, cluster)?;
            run_nodes(alloc, files, users, &setup, reader, held)
        }
        Task::Check { users, .. } => {
            let mut rows = Vec::new(alloc);
            check(alloc, files, cluster, users, &mut rows, held)
        }
        Task::Ask {
            address,
            node,
            operator,
            inquiry,
        } => {
            let operator = operator_at(alloc, files, operator)?;
            let mut asker = asker(files)?;
            let node = AskedNode {
                address: *address,
                number: *node,
                operator: &operator,
            };
            asked(inquire(alloc, &mut asker, node, *inquiry, held))
        }
        Task::Survey { operator, .. } => {
            let members = cluster_in(alloc, cluster)?.members;
            let operator = operator_at(alloc, files, operator)?;
            let mut asker = asker(files)?;
            asked(survey(alloc, &mut asker, &operator, &members, held))
        }
        Task::NewKey => print_new_key(files, held),
        Task::NewCluster => print_new_cluster(files, held),
        Task::Secret { hex } => match print(hex, held) {
            Ok(()) => Ok(()),
            Err(fault) => Err(Fault::Run(fault)),
        },
        Task::SecretOfInput => match print_secret_of(alloc, reader, held) {
            Ok(()) => Ok(()),
            Err(fault) => Err(Fault::Run(fault)),
        },
        Task::Store { .. } => Err(Fault::NoDatabases),
    }
}

ghost use Rattle.std.specs.Prelude.{◌≡◌, ◌+◌, ℕ, IfErr, IfSome, List, OnOk, take};
ghost use Rattle.std.specs.Io.KnownBytes.{Appends};
ghost use Rattle.program_edge.specs.Line.{line_of};
ghost use Rattle.otp_core.specs.Limits.{Limits};
ghost use Rattle.otp_core.specs.Range.{IsMoment};
ghost use Rattle.token_file.specs.Credential.{Credential};
ghost use Rattle.oath_node.specs.ReferenceServer.{Server};
ghost use Rattle.oath_node.specs.Serving.{IsServerAfter, IsServing};
ghost use Rattle.oathd_lines.specs.Client.{client_lines};
ghost use Rattle.users_input.specs.Input.{lines_of};
ghost use Rattle.oathd_lines.specs.Run.{EndsSo, IsBehindUsers, IsCutSo, run_of, run_of_server, run_read};

use crate::client::read_client_line;
use crate::fault::Fault;
use oath_node::LineServer;
use otp_core::Settings;
use program_edge::write_line;
use std::alloc::Global;
use std::io::{BufRead, BufReader, Read, Write};
use token_file::read_book;
use users_input::{HoldsLine, Input, NextLine, Retrying, UsersFile, text_of};
use vote_wire::ClusterKey;

/// Writes an answer and an LF. Flushes if the input has to wait for the next line, so that no client waits for an
/// answer.
fn write_answer<B: HoldsLine, W: Write>(
    input: &Input<B>,
    writer: &mut W,
    answer: &[u8],
) -> Result<(), Fault>
    ensures written { OnOk result (Appends (W.contents writer.old) (W.contents writer.new) (line_of answer.now)) }
    ensures fault { IfErr result (λ fault. fault ≡ Fault.CannotWrite) }
{
    write_line(writer, answer)?;
    if input.reader.holds_line() {
        return Ok(());
    }
    writer.flush().map_err(|_| Fault::CannotWrite)
}

/// Answers the remaining lines of an input, numbered from `first`, up to the first bad line. Each is answered before
/// the next one is read.
fn answer_lines<B: BufRead + HoldsLine + Drop, W: Write>(
    alloc: Global,
    server: &mut LineServer<'_>,
    mut input: Input<B>,
    first: u64,
    writer: &mut W,
) -> Result<(), Fault>
    requires { IsServerAfter server.old 0 }
    ensures ends { (book : List Credential) (limits : Limits) (state : Server)
        → IsServing server.old book limits 0 state → IfSome (B.remaining input.reader) (λ text. EndsSo
        (run_of_server book limits state (client_lines first (lines_of input.room text)))
        result (W.contents writer.old) (W.contents writer.new)) }
    ensures behind { IfErr result IsBehindUsers }
{
    // Each line takes at least one byte of the room, so there are fewer than 2^32.
    let _room = input.room();
    let mut line = Vec::new(alloc);
    for number in first..u64::MAX {
        match input.next_line(&mut line)? {
            NextLine::End => return Ok(()),
            NextLine::Cut => return Err(Fault::InputLine(number)),
            NextLine::Whole => match read_client_line(text_of(&line)) {
                Some(line) => match server.answer(&line) {
                    Ok(answer) => write_answer(&input, writer, &answer)?,
                    // Refused only after 2^62 lines.
                    Err(_) => unreachable!(),
                },
                None => return Err(Fault::InputLine(number)),
            },
        }
    }
    // No input has this many lines.
    Err(Fault::Memory)
}

/// Reads the users file of an input, and answers the lines after it. The node has no members, so it hears nobody under
/// `key`.
fn serve_input<B: BufRead + HoldsLine + Drop, W: Write>(
    alloc: Global,
    settings: Settings,
    moment: u64,
    key: &ClusterKey,
    input: Input<B>,
    writer: &mut W,
) -> Result<(), Fault>
    requires { IsMoment moment }
    ensures ends { IfSome (B.remaining input.reader) (λ text.
        EndsSo (run_read (record { limits = settings; moment = moment }) 16777216 input.room text)
        result (W.contents writer.old) (W.contents writer.new)) }
    ensures cut { IfErr result (λ fault. IfSome (B.remaining input.reader)
        (λ text. IsCutSo (record { limits = settings; moment = moment }) 16777216 input.room text fault)) }
{
    let mut users = UsersFile::new(alloc, input);
    let (book, floors) = match read_book(alloc, &mut users, settings, moment) {
        Ok(read) => read,
        Err(fault) => return Err(Fault::from(users.fault(fault))),
    };
    let (clients, first) = users.into_rest()?;
    let mut server = LineServer::new(alloc, &book, settings, key, &floors)?;
    answer_lines(alloc, &mut server, clients, first, writer)
}

/// Reads a users file, a line `%%` and lines of clients, and answers each line by one node.
///
/// A client's line has its number, a moment and its request, separated by single spaces. Each line is answered, on a
/// line of its own, before the next one is read. The writer is flushed before the run waits for more of the input, and
/// at no other time. The node keeps its last 1,024 answers, except those to bad lines. It repeats an answer to the same
/// client and line. It has no members, so it hears nobody under `key`.
///
/// At most `limit` bytes and one more are read: a line that continues past the limit is bad. The users are imported at
/// the given moment, in seconds since 1970-01-01 00:00:00 UTC, 0 to 1099511627775. At most 8,192 bytes of the input and
/// one line are held.
///
/// # Errors
/// - Returns `Users` if the users file has a fault, or the input fails within it. Nothing is written.
/// - Returns `InputLine` at the first bad line, after the answers to the lines before it.
/// - Returns `CannotRead` if the input fails after the users file, after the answers to the lines before.
/// - Returns `Memory` if the allocator refuses the memory.
/// - Returns `CannotWrite` if the output fails.
pub fn serve_lines<R: Read, W: Write>(
    alloc: Global,
    settings: Settings,
    moment: u64,
    key: &ClusterKey,
    limit: u32,
    reader: &mut R,
    writer: &mut W,
) -> Result<(), Fault>
    requires { IsMoment moment }
    ensures ends { IfSome (R.remaining reader.old) (λ text.
        EndsSo (run_of (record { limits = settings; moment = moment }) 16777216 limit text)
        result (W.contents writer.old) (W.contents writer.new)) }
    ensures cut { IfErr result (λ fault. IfSome (R.remaining reader.old) (λ text.
        IsCutSo (record { limits = settings; moment = moment }) 16777216 limit (take (limit + 1) text) fault)) }
{
    let part = Retrying::new(reader).take(u64::from(limit) + 1);
    let Ok(held) = BufReader::new(alloc, part) else {
        return Err(Fault::Memory);
    };
    serve_input(
        alloc,
        settings,
        moment,
        key,
        Input::new(held, limit),
        writer,
    )
}

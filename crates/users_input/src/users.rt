ghost use Rattle.std.specs.Prelude.{◌≡◌, ◌+◌, ◌<◌, ◌^◌, ◌≤◌, [], drop, length, min, take, IfOk, IfSome, false, true};
ghost use Rattle.std.specs.Io.KnownBytes.{Keeps};
ghost use Rattle.std.specs.Option.{option_map};
ghost use Rattle.token_file.specs.Source.{Stays};
ghost use Rattle.users_input.specs.Input.{is_mark, line_text};

use crate::fault::{InputFault, UsersFault};
use crate::input::{Input, NextLine, is_marker, text_of};
use std::alloc::Global;
use std::io::BufRead;
use token_file::{FileFault, LineFault, Pulled, Source};

/// The stage of the reading of a users file.
#[derive(Clone, Copy, Debug, PartialEq, Eq)]
pub(crate) enum Stage {
    /// More lines of the file may follow.
    Users,
    /// The line `%%` was read, or the input ended without one.
    Rest,
    /// The input failed.
    Failed(InputFault),
}

/// The users file of an input, as a source. It ends before the first line that is `%%`, and reads nothing after that
/// line.
#[derive(Drop)]
pub struct UsersFile<B> {
    input: Input<B>,
    /// The part of the last line that was not pulled yet, or, after a failure of the input, the part of a line read
    /// before.
    line: Vec<u8>,
    /// The number of lines within the limit that were read.
    taken: u64,
    stage: Stage,
    ghost counted: { taken + input.room < 2 ^ 33 },
}

/// Removes the first `count` bytes.
fn remove_front(bytes: &mut Vec<u8>, count: usize)
    requires { count ≤ length bytes.old.items }
    ensures { bytes.new.items ≡ drop count bytes.old.items }
{
    let len = bytes.len();
    bytes.as_mut_slice().copy_within(count..len, 0);
    bytes.truncate(len - count);
}

/// Moves a prefix of `line` into a prefix of `buffer`, as long as both allow. Returns its length.
fn move_front(line: &mut Vec<u8>, buffer: &mut [u8]) -> usize
    ensures count { result ≡ min (length line.old.items) (length buffer.old) }
    ensures moved { take result buffer.new ≡ take result line.old.items }
    ensures line { line.new.items ≡ drop result line.old.items }
    ensures len { length buffer.new ≡ length buffer.old }
{
    let count = line.len().min(buffer.len());
    buffer[..count].copy_from_slice(&line[..count]);
    remove_front(line, count);
    count
}

/// Returns the stage after `line` was read. Clears a line that is `%%`.
fn stage_behind(line: &mut Vec<u8>) -> Stage
    ensures marked { is_mark (line_text line.old.items) ≡ true
        → (result ≡ Stage.Rest) × (line.new.items ≡ []) }
    ensures unmarked { is_mark (line_text line.old.items) ≡ false
        → (result ≡ Stage.Users) × (line.new.items ≡ line.old.items) }
{
    if is_marker(text_of(line)) {
        line.clear();
        Stage::Rest
    } else {
        Stage::Users
    }
}

impl<B: BufRead + Drop> UsersFile<B> {
    ghost use Rattle.std.specs.Prelude.{◌⊎◌};
    ghost use Rattle.users_input.specs.Input.{lines_of};
    ghost use Rattle.users_input.specs.Users.{HasRest, IsFilled, is_failed, rest_behind, users_text};

    /// Returns the users file at the start of an input.
    pub fn new(alloc: Global, input: Input<B>) -> Self
        ensures left { ⟦<UsersFile<B> as Source>⟧.left result
            ≡ option_map (users_text input.room) (B.remaining input.reader) }
        ensures rest { ⟦<UsersFile<B> as Source>⟧.behind result
            ≡ option_map (λ text. rest_behind 0 (lines_of input.room text)) (B.remaining input.reader) }
    {
        UsersFile {
            input,
            line: Vec::new(alloc),
            taken: 0,
            stage: Stage::Users,
        }
    }

    /// Reads the next line of the input, after the last one was pulled.
    fn take_next(&mut self)
        requires stage { self.old.stage ≡ Stage.Users }
        requires line { self.old.line.items ≡ [] }
        ensures left { Keeps (⟦<UsersFile<B> as Source>⟧.left self.old)
            (⟦<UsersFile<B> as Source>⟧.left self.new) }
        ensures rest { Stays (⟦<UsersFile<B> as Source>⟧.behind self.old)
            (⟦<UsersFile<B> as Source>⟧.behind self.new) }
        ensures some { IsFilled self.new.stage self.new.line.items }
    {
        let next = match self.input.next_line(&mut self.line) {
            Ok(next) => next,
            Err(fault) => {
                self.stage = Stage::Failed(fault);
                return;
            }
        };
        match next {
            NextLine::Whole => {
                self.taken += 1;
                self.stage = stage_behind(&mut self.line);
            }
            NextLine::Cut => {}
            NextLine::End => self.stage = Stage::Rest,
        }
    }

    /// Reads the next line if the last one was pulled and more lines may follow.
    fn fill(&mut self)
        ensures left { Keeps (⟦<UsersFile<B> as Source>⟧.left self.old)
            (⟦<UsersFile<B> as Source>⟧.left self.new) }
        ensures rest { Stays (⟦<UsersFile<B> as Source>⟧.behind self.old)
            (⟦<UsersFile<B> as Source>⟧.behind self.new) }
        ensures some { IsFilled self.new.stage self.new.line.items }
        ensures failed { is_failed self.old.stage ≡ true → is_failed self.new.stage ≡ true }
    {
        match self.stage {
            Stage::Users => {
                if self.line.is_empty() {
                    self.take_next();
                }
            }
            Stage::Rest | Stage::Failed(_) => {}
        }
    }

    /// Returns the reason why the file is not accepted, if `fault` ended its reading.
    pub fn fault(&self, fault: FileFault) -> UsersFault
        ensures { (result ≡ UsersFault.Memory) ⊎ (result ≡ UsersFault.File fault) }
    {
        match self.stage {
            Stage::Failed(InputFault::Memory) if fault.kind == LineFault::Read => {
                UsersFault::Memory
            }
            _ => UsersFault::File(fault),
        }
    }

    /// Returns the rest of the input, and the number of its first line. Skips the rest of the users file.
    pub fn into_rest(mut self) -> Result<(Input<B>, u64), InputFault>
        ensures { IfOk result (λ found. IfSome (⟦<UsersFile<B> as Source>⟧.behind self)
            (λ rest. HasRest rest found.1 found.0.room (B.remaining found.0.reader))) }
    {
        for _ in 0..u64::MAX {
            match self.stage {
                Stage::Users => {
                    self.line.clear();
                    self.take_next();
                }
                Stage::Rest => {
                    let first = self.taken + 1;
                    return Ok((self.input, first));
                }
                Stage::Failed(fault) => return Err(fault),
            }
        }
        // No memory holds this many lines.
        Err(InputFault::Memory)
    }
}

impl<B: BufRead + Drop> Source for UsersFile<B> {
    ghost use Rattle.std.specs.Option.{option_map};
    ghost use Rattle.std.specs.Prelude.{List};
    ghost use Rattle.users_input.specs.Users.{NumberedLine, is_failed, rest_left, users_left};

    ghost left = { λ users.
        option_map (users_left users.stage users.input.room users.line.items) (B.remaining users.input.reader) };

    ghost Behind = { List NumberedLine };

    ghost behind = { λ users.
        option_map (rest_left users.stage users.taken users.input.room users.line.items)
        (B.remaining users.input.reader) };

    ghost has_failed = { λ users. is_failed users.stage };

    fn pull(&mut self, buffer: &mut [u8]) -> Pulled {
        self.fill();
        match self.stage {
            Stage::Failed(_) => Pulled::Failed,
            Stage::Users | Stage::Rest => Pulled::Bytes(move_front(&mut self.line, buffer)),
        }
    }
}

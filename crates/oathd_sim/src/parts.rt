ghost use Rattle.std.specs.Prelude.{◌≡◌, IfErr, IfOk, IfSome, length};
ghost use Rattle.otp_core.specs.Range.{IsMoment};
ghost use Rattle.oathd_sim.specs.Parts.{HasParts, IsUnread};

use crate::fault::Fault;
use otp_core::{Next, Settings};
use std::alloc::Global;
use std::io::BufRead;
use token_file::{Book, read_book};
use users_input::{Input, LimitedText, UsersFile};

/// The two parts of an input.
#[derive(Drop)]
pub(crate) struct Parts {
    /// The tokens of the users file.
    pub(crate) book: Book,
    /// The floors of the tokens (floor: the first free factor).
    pub(crate) floors: Vec<Next>,
    /// The text after the users file and `%%`.
    pub(crate) script: LimitedText,
    /// The number of the script's first line, from 1 in the whole input.
    pub(crate) first: u64,
    ghost each: { length floors.items ≡ length book },
}

/// Reads a users file and the script after it.
pub(crate) fn read_parts<B: BufRead + Drop>(
    alloc: Global,
    settings: Settings,
    moment: u64,
    input: Input<B>,
) -> Result<Parts, Fault>
    requires { IsMoment moment }
    ensures parts { IfOk result (λ parts. IfSome (B.remaining input.reader) (λ text.
        HasParts settings moment 16777216 input.room text parts.book parts.floors.items
        parts.first parts.script.bytes.items parts.script.is_cut)) }
    ensures fault { IfErr result (λ fault. IfSome (B.remaining input.reader) (λ text.
        IsUnread settings moment 16777216 input.room text fault)) }
{
    let mut users = UsersFile::new(alloc, input);
    let (book, floors) = match read_book(alloc, &mut users, settings, moment) {
        Ok(read) => read,
        Err(fault) => return Err(Fault::from(users.fault(fault))),
    };
    let (rest, first) = users.into_rest()?;
    let script = rest.read_all(alloc)?;
    Ok(Parts {
        book,
        floors,
        script,
        first,
    })
}

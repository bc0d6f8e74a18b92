ghost use Rattle.std.specs.Prelude.{◌≡◌};
ghost use Rattle.std.specs.Option.{option_map};
ghost use Rattle.cluster_sim.specs.Run.{round_line};
ghost use Rattle.oathd_sim.specs.Event.{act_of, event_of};
ghost use Rattle.oathd_sim.specs.Reading.{Reads};
ghost use Rattle.oathd_sim.specs.Script.{act_of_word, anew_event, bytes_of, client_act, cut_event, deliver_act, event_line};
ghost use Rattle.oathd_sim.specs.Lines.{fields_of, is_remark};
ghost use Rattle.oathd_sim.specs.Script.{kept_of_word, lost_event, next_of, nexts_of, noise_act, restart_event, said_line, tick_act};

use crate::rounds::is_field_end;
use crate::script_fault::LineFault;
use bumpalo::Bump;
use bumpalo::collections::into_bump_slice;
use cluster_sim::{Act, RoundLine, WorldEvent};
use field_text::{cut_at, read_number};
use hex::FromHexError;
use otp_core::Next;

/// The maximum number of digits of a noise.
const MAX_DIGITS: usize = 1_024;

/// Returns whether a line is a remark: it is empty, or it begins with `#`.
pub(crate) fn is_remark(line: &[u8]) -> bool
    ensures { result ≡ is_remark line.now }
{
    match line {
        [] => true,
        [first, ..] => *first == b'#',
    }
}

/// Reads a client's line with its node, client and moment: `NODE CLIENT MOMENT LINE`.
pub(crate) fn read_said(text: &[u8]) -> Option<RoundLine<'_>>
    ensures { option_map round_line result ≡ said_line text.now }
{
    let (node, rest) = cut_at(text, b' ')?;
    let (client, rest) = cut_at(rest, b' ')?;
    let (moment, line) = cut_at(rest, b' ')?;
    Some(RoundLine {
        node: read_number(node)?,
        client: read_number(client)?,
        moment: read_number(moment)?,
        line,
    })
}

/// Reads the action of a client's line.
fn read_client(text: &[u8]) -> Option<Act<'_>>
    ensures { option_map act_of result ≡ client_act text.now }
{
    let RoundLine {
        node,
        client,
        moment,
        line,
    } = read_said(text)?;
    Some(Act::Client {
        node,
        client,
        moment,
        line,
    })
}

/// Reads a delivery: `NODE K`.
fn read_deliver(text: &[u8]) -> Option<Act<'_>>
    ensures { option_map act_of result ≡ deliver_act text.now }
{
    let (node, k) = cut_at(text, b' ')?;
    Some(Act::Deliver {
        node: read_number(node)?,
        k: read_number(k)?,
    })
}

/// Reads a tick: `NODE`.
fn read_tick(text: &[u8]) -> Option<Act<'_>>
    ensures { option_map act_of result ≡ tick_act text.now }
{
    Some(Act::Tick {
        node: read_number(text)?,
    })
}

/// Returns the bytes of 2 to 1,024 hexadecimal digits, two a byte, in either case. Allocates them in the arena.
fn read_bytes<'a>(arena: &'a Bump, digits: &[u8]) -> Result<&'a [u8], LineFault>
    ensures { Reads (λ bytes. bytes.now) (bytes_of digits.now) result }
{
    if digits.len() < 2 || digits.len() > MAX_DIGITS {
        return Err(LineFault::Form);
    }
    match hex::decode(arena, digits) {
        Ok(bytes) => Ok(into_bump_slice(bytes)),
        Err(FromHexError::OutOfMemory) => Err(LineFault::Memory),
        Err(_) => Err(LineFault::Form),
    }
}

/// Reads a noise: `NODE FROM HEX`.
fn read_noise<'a>(arena: &'a Bump, text: &[u8]) -> Result<Act<'a>, LineFault>
    ensures { Reads act_of (noise_act text.now) result }
{
    let (node, rest) = cut_at(text, b' ').ok_or(LineFault::Form)?;
    let (from, digits) = cut_at(rest, b' ').ok_or(LineFault::Form)?;
    Ok(Act::Noise {
        node: read_number(node).ok_or(LineFault::Form)?,
        from: read_number(from).ok_or(LineFault::Form)?,
        bytes: read_bytes(arena, digits)?,
    })
}

/// Reads an action from its word and the text after the next space.
fn read_act<'a>(arena: &'a Bump, word: &[u8], rest: &'a [u8]) -> Result<Act<'a>, LineFault>
    ensures { Reads act_of (act_of_word word.now rest.now) result }
{
    if word == b"client".as_slice() {
        read_client(rest).ok_or(LineFault::Form)
    } else if word == b"deliver".as_slice() {
        read_deliver(rest).ok_or(LineFault::Form)
    } else if word == b"tick".as_slice() {
        read_tick(rest).ok_or(LineFault::Form)
    } else if word == b"noise".as_slice() {
        read_noise(arena, rest)
    } else {
        Err(LineFault::Form)
    }
}

/// Reads the word that says whether a stop keeps the change of its action.
fn read_kept(word: &[u8]) -> Option<bool>
    ensures { result ≡ kept_of_word word.now }
{
    if word == b"kept".as_slice() {
        Some(true)
    } else if word == b"lost".as_slice() {
        Some(false)
    } else {
        None
    }
}

/// Reads a stop during an action: `kept` or `lost`, and the action.
fn read_cut<'a>(arena: &'a Bump, text: &'a [u8]) -> Result<WorldEvent<'a>, LineFault>
    ensures { Reads event_of (cut_event text.now) result }
{
    let (word, line) = cut_at(text, b' ').ok_or(LineFault::Form)?;
    let kept = read_kept(word).ok_or(LineFault::Form)?;
    let (word, rest) = cut_at(line, b' ').ok_or(LineFault::Form)?;
    let act = read_act(arena, word, rest)?;
    Ok(WorldEvent::Cut { kept, act })
}

/// Reads a restart: `NODE`.
fn read_restart(text: &[u8]) -> Option<WorldEvent<'_>>
    ensures { option_map event_of result ≡ restart_event text.now }
{
    Some(WorldEvent::Restart {
        node: read_number(text)?,
    })
}

/// Reads the loss of a store: `NODE`.
fn read_lost(text: &[u8]) -> Option<WorldEvent<'_>>
    ensures { option_map event_of result ≡ lost_event text.now }
{
    Some(WorldEvent::Lost {
        node: read_number(text)?,
    })
}

/// Reads a floor, the first free factor of a token: at most 2^62.
fn read_next(text: &[u8]) -> Option<Next>
    ensures { result ≡ next_of text.now }
{
    Next::new(read_number(text)?)
}

/// Reads floors: `NEXT ..`. Allocates them in the arena.
fn read_floors<'a>(arena: &'a Bump, text: &[u8]) -> Result<&'a [Next], LineFault>
    ensures { Reads (λ floors. floors.now) (nexts_of (fields_of text.now)) result }
{
    let mut floors = Vec::new(arena);
    for field in text.split(is_field_end) {
        let Some(next) = read_next(field) else {
            return Err(LineFault::Form);
        };
        floors.push(next)?;
    }
    Ok(into_bump_slice(floors))
}

/// Reads the replacement of a store: `NODE BOOT NEXT ..`.
fn read_anew<'a>(arena: &'a Bump, text: &[u8]) -> Result<WorldEvent<'a>, LineFault>
    ensures { Reads event_of (anew_event text.now) result }
{
    let (node, rest) = cut_at(text, b' ').ok_or(LineFault::Form)?;
    let (boot, floors) = cut_at(rest, b' ').ok_or(LineFault::Form)?;
    Ok(WorldEvent::Anew {
        node: read_number(node).ok_or(LineFault::Form)?,
        boot: read_number(boot).ok_or(LineFault::Form)?,
        floors: read_floors(arena, floors)?,
    })
}

/// Reads the event of a line.
pub(crate) fn read_event<'a>(arena: &'a Bump, line: &'a [u8]) -> Result<WorldEvent<'a>, LineFault>
    ensures { Reads event_of (event_line line.now) result }
{
    let (word, rest) = cut_at(line, b' ').ok_or(LineFault::Form)?;
    if word == b"restart".as_slice() {
        read_restart(rest).ok_or(LineFault::Form)
    } else if word == b"lost".as_slice() {
        read_lost(rest).ok_or(LineFault::Form)
    } else if word == b"anew".as_slice() {
        read_anew(arena, rest)
    } else if word == b"cut".as_slice() {
        read_cut(arena, rest)
    } else {
        Ok(WorldEvent::Happens(read_act(arena, word, rest)?))
    }
}

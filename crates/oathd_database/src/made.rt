//! The command `init` for a member of a cluster: creates its store, and says what was made.
//!
//! Floor: the first free factor of a token at a node.

ghost use Rattle.std.specs.Prelude.{◌≡◌, ◌≢◌, ◌≤◌, ◌↔◌, ◌∷◌, [], ◌++◌, ℕ, List, Option, Some, IfErr, IfOk, IfSome, OnOk, codes, slice_get, true, false};
ghost use Rattle.std.specs.Io.KnownBytes.{Appends};
ghost use Rattle.std.specs.List.{list_any};
ghost use Rattle.otp_core.specs.Limits.{AreLimits, Limits, default_limits};
ghost use Rattle.otp_core.specs.Range.{IsMoment};
ghost use Rattle.otp_core.specs.Totp.{step_of};
ghost use Rattle.token_file.specs.Credential.{Credential, period_of};
ghost use Rattle.token_file.specs.Examples.{event_token, time_token};
ghost use Rattle.token_file.specs.declared.fault.LineFault.TheVariants.{MissingField};
ghost use Rattle.token_file.specs.declared.token.Kind.TheVariants.{Time30, Time60};
ghost use Rattle.floor_sql.specs.Broken.{tables_at};
ghost use Rattle.floor_store.specs.declared.fault.StoreFault.TheVariants.{Disk};
ghost use Rattle.oathd_database.specs.Broken.{IsOfClock, drifting, fallen, new_store, no_users, shows_any, shows_none, still, users_fault};
ghost use Rattle.oathd_database.specs.Examples.{store_with, two_closed};
ghost use Rattle.oathd_database.specs.Fault.{IsOutputFault};
ghost use Rattle.oathd_database.specs.Made.{HasMadeMember, IsMadeAt, IsNotTold, fresh_text, has_step, made_text, member_line, ready_at, ready_line, step_text, step_words, store_line, time_text};
ghost use Rattle.oathd_database.specs.Users.{IsImported, drifted_floors};
ghost use Rattle.oathd_database.specs.declared.fault.Fault.TheVariants.{CannotWrite, Memory, NoClock, Socket, Store};

use crate::database::Database;
use crate::fault::Fault;
use crate::init::create_store;
use crate::users::token_at;
use floor_sql::SqlStore;
use floor_store::FloorStore;
use otp_core::Settings;
use sqlite::Alter;
use std::alloc::Global;
use std::io::{self, Read, Write};
use token_file::{Book, Token};
use vote_core::Place;

/// Returns the moment from which on the code of the current step is free, for a time token with steps of `step` seconds
/// that is imported at `moment`.
fn ready_at(settings: Settings, moment: u64, step: u64) -> u64
    requires moment { IsMoment moment }
    requires first { 1 ≤ step }
    requires last { step ≤ 60 }
    ensures { result ≡ ready_at settings moment step }
{
    (moment / step + settings.skew() + settings.drift() + 1) * step
}

/// Writes the clock's time of a moment in UTC.
#[tactic(auto, unfolding(crate::specs::Made::time_text))]
fn write_time<W: Write>(writer: &mut W, moment: u64) -> io::Result<()>
    ensures { OnOk result (Appends (W.contents writer.old) (W.contents writer.new) (time_text moment)) }
{
    let (hours, minutes, seconds) = (moment / 3600 % 24, moment / 60 % 60, moment % 60);
    write!(writer, "{}{}:", hours / 10, hours % 10)?;
    write!(writer, "{}{}:", minutes / 10, minutes % 10)?;
    write!(writer, "{}{}", seconds / 10, seconds % 10)
}

/// Writes the first words of a line on time tokens with steps of `step` seconds.
#[tactic(auto, unfolding(crate::specs::Made::step_words))]
fn write_words<W: Write>(writer: &mut W, step: u64) -> io::Result<()>
    ensures { OnOk result (Appends (W.contents writer.old) (W.contents writer.new) (step_words step)) }
{
    write!(
        writer,
        "time tokens with steps of {step} s are accepted from "
    )
}

/// Writes that time tokens with steps of `step` seconds are accepted from the moment `from` on.
#[tactic(auto, unfolding(crate::specs::Made::ready_line))]
fn write_ready<W: Write>(writer: &mut W, step: u64, from: u64) -> io::Result<()>
    ensures { OnOk result (Appends (W.contents writer.old) (W.contents writer.new) (ready_line step from)) }
{
    write_words(writer, step)?;
    write_time(writer, from)?;
    writer.write_all(b" UTC on\n")
}

/// Returns whether a token has time steps of `step` seconds.
fn has_step(token: &Token, step: u64) -> bool
    ensures { result ≡ has_step step token.now }
{
    match token.kind().period() {
        Some(period) => period == step,
        None => false,
    }
}

/// Returns whether a token of `book` has time steps of `step` seconds.
fn has_steps(book: &Book, step: u64) -> bool
    ensures { result ≡ list_any (has_step step) book.now }
{
    for number in 0..book.len() {
        if has_step(token_at(book, number as u32), step) {
            return true;
        }
    }
    false
}

/// Writes that time tokens with steps of `step` seconds are accepted from the moment `from` on, if `book` has one.
#[tactic(auto, unfolding(crate::specs::Made::step_text))]
fn write_step<W: Write>(writer: &mut W, book: &Book, step: u64, from: u64) -> io::Result<()>
    ensures { OnOk result (Appends (W.contents writer.old) (W.contents writer.new) (step_text book.now step from)) }
{
    if has_steps(book, step) {
        return write_ready(writer, step, from);
    }
    Ok(())
}

/// Writes the line of a member with the given numbers of its store.
#[tactic(auto, unfolding(crate::specs::Made::member_line))]
fn write_numbers<W: Write>(writer: &mut W, place: Place, boot: u64, tokens: u32) -> io::Result<()>
    ensures { OnOk result (Appends (W.contents writer.old) (W.contents writer.new) (member_line place boot tokens)) }
{
    let (me, n) = (place.me(), place.n());
    write!(
        writer,
        "made node {me} of {n}: boot {boot}, tokens {tokens}\n"
    )
}

/// Writes the line of a member and its store.
fn write_member<S: FloorStore, W: Write>(
    writer: &mut W,
    place: Place,
    store: &S,
) -> Result<(), Fault>
    ensures written { (S.held store.now).is_clean → OnOk result (Appends (W.contents writer.old)
        (W.contents writer.new) (store_line place (S.held store.now).content)) }
    ensures fault { IfErr result (IsOutputFault (S.held store.now).fault) }
{
    let boot = store.boot()?;
    write_numbers(writer, place, boot, store.tokens()).map_err(|_| Fault::CannotWrite)
}

/// Writes a line for each kind of time token that `book` has, with the moment from which on it is accepted.
fn write_steps<W: Write>(writer: &mut W, book: &Book, short: u64, long: u64) -> io::Result<()>
    ensures { OnOk result (Appends (W.contents writer.old) (W.contents writer.new)
        (step_text book.now 30 short ++ step_text book.now 60 long)) }
{
    write_step(writer, book, 30, short)?;
    write_step(writer, book, 60, long)
}

/// Writes what a new store is: the node's number, the number of members, the boot and the number of tokens. Flushes.
///
/// # Errors
/// - Returns `Store` if the store is broken.
/// - Returns `CannotWrite` if the output fails. A prefix of the text may have been written.
pub fn write_store<S: FloorStore, W: Write>(
    place: Place,
    store: &S,
    writer: &mut W,
) -> Result<(), Fault>
    ensures written { (S.held store.now).is_clean → OnOk result (Appends (W.contents writer.old)
        (W.contents writer.new) (store_line place (S.held store.now).content)) }
    ensures fault { IfErr result (IsOutputFault (S.held store.now).fault) }
{
    write_member(writer, place, store)?;
    writer.flush().map_err(|_| Fault::CannotWrite)
}

/// Writes what a new store is, as [`write_store`] does, and when the time tokens of its import are accepted. Flushes.
///
/// The tokens of `book` were imported with `settings` at `moment`. A line follows for each kind of time token among
/// them, with the clock's time in UTC.
///
/// # Errors
/// Returns the errors of [`write_store`].
pub fn write_made<S: FloorStore, W: Write>(
    place: Place,
    store: &S,
    book: &Book,
    settings: Settings,
    moment: u64,
    writer: &mut W,
) -> Result<(), Fault>
    requires { IsMoment moment }
    ensures written { (S.held store.now).is_clean → OnOk result (Appends (W.contents writer.old)
        (W.contents writer.new) (made_text place (S.held store.now).content book.now settings moment)) }
    ensures fault { IfErr result (IsOutputFault (S.held store.now).fault) }
{
    let short = ready_at(settings, moment, 30);
    let long = ready_at(settings, moment, 60);
    write_member(writer, place, store)?;
    write_steps(writer, book, short, long).map_err(|_| Fault::CannotWrite)?;
    writer.flush().map_err(|_| Fault::CannotWrite)
}

/// Writes what a new store is, as [`write_store`] does, and that its time tokens are accepted from the moment on.
/// Flushes.
///
/// The tokens of `book` have new secrets. A line follows for each kind of time token among them, with the clock's time
/// in UTC.
///
/// # Errors
/// Returns the errors of [`write_store`].
pub fn write_fresh<S: FloorStore, W: Write>(
    place: Place,
    store: &S,
    book: &Book,
    moment: u64,
    writer: &mut W,
) -> Result<(), Fault>
    ensures written { (S.held store.now).is_clean → OnOk result (Appends (W.contents writer.old)
        (W.contents writer.new) (fresh_text place (S.held store.now).content book.now moment)) }
    ensures fault { IfErr result (IsOutputFault (S.held store.now).fault) }
{
    write_member(writer, place, store)?;
    write_steps(writer, book, moment, moment).map_err(|_| Fault::CannotWrite)?;
    writer.flush().map_err(|_| Fault::CannotWrite)
}

/// Creates the store of the member at `place`, as [`init_store`](crate::init_store) does, and writes what was made, as
/// [`write_made`] does.
///
/// # Errors
/// - Returns the errors of [`init_store`](crate::init_store). Nothing is written.
/// - Returns `CannotWrite` if the output fails. The store was created and stays.
pub fn init_member_store<R: Read + Drop, S: Alter + Drop, D: Database<S>, W: Write>(
    alloc: Global,
    users: R,
    settings: Settings,
    moment: u64,
    place: Place,
    database: D,
    writer: &mut W,
) -> Result<SqlStore<S>, Fault>
    requires { IsMoment moment }
    ensures made { IfOk result (λ store. IfSome (R.remaining users) (HasMadeMember S.Store D.finds settings moment
        16777216 place store (W.contents writer.old) (W.contents writer.new))) }
    ensures fault { IfErr result (λ fault. IfSome (R.remaining users)
        (IsNotTold S.Store D.finds settings moment 16777216 place.me fault)) }
    ensures quiet { IfErr result (λ fault. fault ≢ CannotWrite
        → W.contents writer.new ≡ W.contents writer.old) }
{
    let (users, store) = create_store(alloc, users, settings, moment, place.me(), database)?;
    write_made(place, &store, &users.book, settings, moment, writer)?;
    Ok(store)
}

/// Readiness: an imported time token's current step is at or above its floor from `ready_at` on, and never before.
pub fn time_tokens_are_ready()
    ensures { (limits : Limits) (moment longest place step floor now : ℕ) (users : List ℕ) (book : List Credential)
        (floors : List ℕ) (token : Credential) → AreLimits limits → IsMoment moment
        → IsImported limits moment longest book floors users → slice_get book place ≡ Some token
        → period_of token.kind ≡ Some step → slice_get (drifted_floors limits.drift book floors) place ≡ Some floor
        → (ready_at limits moment step ≤ now) ↔ (floor ≤ step_of now 0 step) }
{}

/// Worked cases: an import at 09:30:17 UTC with the default settings, and its text.
pub fn made_is_worked()
    ensures short_steps { ready_at default_limits 34217 30 ≡ 34260 }
    ensures long_steps { ready_at default_limits 34217 60 ≡ 34320 }
    ensures drift { ready_at (record default_limits { drift = 2 }) 34217 30 ≡ 34320 }
    ensures time { time_text 34260 ≡ codes "09:31:00" }
    ensures last_second { time_text 86399 ≡ codes "23:59:59" }
    ensures next_day { time_text 86400 ≡ codes "00:00:00" }
    ensures member { member_line (record { me = 2; n = 3 }) 1048576 10000
        ≡ codes "made node 2 of 3: boot 1048576, tokens 10000\n" }
    ensures store { store_line (record { me = 1; n = 1 }) (store_with two_closed)
        ≡ codes "made node 1 of 1: boot 5, tokens 2\n" }
    ensures ready { ready_line 30 34260 ≡ codes "time tokens with steps of 30 s are accepted from 09:31:00 UTC on\n" }
    ensures no_time { step_text (event_token (codes "a") ∷ []) 30 34260 ≡ [] }
    ensures no_such_step { step_text (time_token Time60 ∷ []) 30 34260 ≡ [] }
    ensures second_token { step_text (event_token (codes "a") ∷ time_token Time60 ∷ []) 60 34320
        ≡ codes "time tokens with steps of 60 s are accepted from 09:32:00 UTC on\n" }
    ensures no_token { step_text [] 60 34320 ≡ [] }
    ensures order { made_text (record { me = 2; n = 3 }) (store_with two_closed)
        (time_token Time60 ∷ time_token Time30 ∷ []) default_limits 34217
        ≡ codes "made node 2 of 3: boot 5, tokens 2\n"
        ++ codes "time tokens with steps of 30 s are accepted from 09:31:00 UTC on\n"
        ++ codes "time tokens with steps of 60 s are accepted from 09:32:00 UTC on\n" }
    ensures fresh { fresh_text (record { me = 2; n = 3 }) (store_with two_closed)
        (time_token Time60 ∷ time_token Time30 ∷ []) 34217
        ≡ codes "made node 2 of 3: boot 5, tokens 2\n"
        ++ codes "time tokens with steps of 30 s are accepted from 09:30:17 UTC on\n"
        ++ codes "time tokens with steps of 60 s are accepted from 09:30:17 UTC on\n" }
{}

/// Counterexamples: each promise of a member's store, and of a fault, fails for a minimal one.
pub fn members_can_be_broken()
    ensures member { (users : List ℕ) → IsOfClock users
        → HasMadeMember fallen shows_any (drifting 2) 59 15 (record { me = 1; n = 3 }) (new_store 0 (5 ∷ [])) (Some [])
        (Some []) users }
    ensures member_made { HasMadeMember fallen shows_any default_limits 0 11 (record { me = 1; n = 3 }) (new_store 0 [])
        (Some []) (Some []) no_users → ⊥ }
    ensures member_written { HasMadeMember (still (tables_at 0 [])) shows_any default_limits 0 11
        (record { me = 1; n = 3 }) (new_store 0 []) (Some []) (Some (codes "x")) [] → ⊥ }
    ensures at_found { IsMadeAt (still (tables_at 0 [])) shows_none 1 [] (new_store 0 []) → ⊥ }
    ensures at_boot { IsMadeAt fallen shows_any 1 [] (new_store 1 []) → ⊥ }

    // the fault of a command that creates a member's store
    ensures output { (users : List ℕ) → IsOfClock users
        → IsNotTold fallen shows_any (drifting 2) 59 15 1 CannotWrite users }
    ensures output_before_import { IsNotTold fallen shows_any default_limits 0 11 1 CannotWrite no_users → ⊥ }
    ensures memory { IsNotTold fallen shows_any default_limits 0 6 1 Memory no_users }
    ensures users { IsNotTold fallen shows_any default_limits 0 6 1 (users_fault 1 MissingField) no_users }
    ensures wrong_users { IsNotTold fallen shows_any default_limits 0 6 1 (users_fault 1 MissingField) (codes "# none")
        → ⊥ }
    ensures store_before_import { IsNotTold fallen shows_any default_limits 0 6 1 (Store Disk) no_users → ⊥ }
    ensures clock { IsNotTold fallen shows_any default_limits 0 6 1 NoClock (codes "# none") → ⊥ }
    ensures socket { IsNotTold fallen shows_any default_limits 0 6 1 Socket (codes "# none") → ⊥ }
{}

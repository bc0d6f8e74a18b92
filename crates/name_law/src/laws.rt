//! The laws about the datagrams of nodes that speak by names.

ghost use Rattle.std.specs.Prelude.{◌≡◌, ◌<◌, ◌≤◌, [], ◌∷◌, ℕ, List, Option, Result, Some, length, map, slice_get, slice_index};
ghost use Rattle.std.specs.Option.{option_map};
ghost use Rattle.floor_store.specs.Content.{Content};
ghost use Rattle.floor_store.specs.Held.{Commits, IsSettled, RaisesBoot};
ghost use Rattle.floor_store.specs.Records.{PassRecord, RowRecord};
ghost use Rattle.floor_store.specs.declared.fault.StoreFault.{StoreFault};
ghost use Rattle.seated_store.specs.Seated.{IsPassedOn, PutsBelow, SeatedRecord, seated_held};
ghost use Rattle.seated_store.specs.Seats.{AreSeats};
ghost use Rattle.datagram_port.specs.Port.{Offered, PortEvent, Received};
ghost use Rattle.datagram_port.specs.declared.port.Sender.TheVariants.{Peer as FromMember};
ghost use Rattle.named_port.specs.Runs.{Has, below_events, handed_events};
ghost use Rattle.named_port.specs.Translator.{TranslatorRecord, handed_in, offered};
ghost use Rattle.named_port.specs.Wire.{token_of};
ghost use Rattle.oath_node.specs.Hosted.{envelope_at};
ghost use Rattle.oath_node.specs.Machine.{NodeEvent, Peer};
ghost use Rattle.oath_node.specs.Turns.{offers_in};
ghost use Rattle.vote_core.specs.Schedule.{Envelope};
ghost use Rattle.vote_wire.specs.Body.{HasSpelling};
ghost use Rattle.vote_wire.specs.Key.{bare};
ghost use Rattle.admit_core.specs.Throttle.{SpacesFailures};
ghost use Rattle.otp_core.specs.Acceptance.{HaveSingleUse, KeepRealTimeOrder};
ghost use Rattle.vote_core.specs.Safety.{HaveMajority};
ghost use Rattle.seat_law.specs.Seeds.{AreGivenUp, HaveSingleUseOfSeeds, KeepOrderOfSeeds};
ghost use Rattle.book_law.specs.Answered.{AnswersAll};
ghost use Rattle.book_law.specs.Justified.{JustifiesAll};
ghost use Rattle.book_law.specs.Lives.{Action, IsHistory, Output, Sealed, Setting, Store, Terms, accepted_in, answered_in, floor_in, named_envelope};
ghost use Rattle.book_law.specs.Promises.{AnswerTruly};
ghost use Rattle.book_law.specs.Results.{results_in};
ghost use Rattle.book_law.specs.Seeds.{OpensGreatest};
ghost use Rattle.book_law.specs.Uses.{IsProcess, IsProcessIn, OwnOutput, Part, entries_in, offer_of_output};
ghost use Rattle.name_law.specs.Datagrams.{IsReadable, IsSpelled, IsTranslatorOf, bytes_for, named_datagram, numbered_envelope, own_datagram, own_number};
ghost use Rattle.name_law.specs.Ports.{AreSeated, ReadsEvent, first_translator, named_offer};
ghost use Rattle.name_law.specs.Stores.{KeepsOthers, LeavesUnder};
ghost use Rattle.name_law.specs.Unforged.{IsSized, IsUnforgedHistory, IsVoteFor, ReadsOffered, TellsVote, WereOffered};

use book_law::{books_are_safe, devices_are_safe};
use floor_store::FloorStore;
use oath_node::rulings_have_grounds;

/// Datagrams by names: a translator offers an envelope by the names of canonical tokens, and another one reads it so.
///
/// A process reads nothing about a token that it has no number for.
pub fn named_datagrams_tell_envelopes()
    // The translator of a process offers one datagram for an envelope: the one under canonical tokens.
    ensures offered { (names : List (List ℕ)) (node : ℕ) (terms : Terms) (translator : TranslatorRecord)
        (envelope : Envelope) → IsTranslatorOf names node terms translator
        → HasSpelling envelope.sender envelope.receiver envelope.message
        → token_of envelope.message < length terms.seats
        → let sealed : Sealed = record { key = terms.key; envelope = named_envelope terms.seats envelope } in
        offered translator (FromMember envelope.receiver) (own_datagram envelope)
        ≡ Offered (FromMember envelope.receiver) (named_datagram names translator.boot sealed) ∷ [] }
    // From the sender's address, a translator under the same key hands in the datagram with its own number, if any.
    ensures handed { (names : List (List ℕ)) (node boot : ℕ) (terms : Terms) (translator : TranslatorRecord)
        (sealed : Sealed) → IsTranslatorOf names node terms translator → IsReadable names terms boot sealed
        → sealed.envelope.receiver ≡ node → slice_index translator.heard sealed.envelope.sender ≤ boot
        → handed_in translator (Received (FromMember sealed.envelope.sender) (named_datagram names boot sealed))
        ≡ Received (FromMember sealed.envelope.sender)
        (bytes_for sealed.envelope (own_number terms.seats (token_of sealed.envelope.message))) }
    // It hands in no bytes if it has heard the sender in a greater boot.
    ensures older { (names : List (List ℕ)) (node boot from : ℕ) (terms : Terms) (translator : TranslatorRecord)
        (sealed : Sealed) → IsTranslatorOf names node terms translator → IsReadable names terms boot sealed
        → boot < slice_index translator.heard sealed.envelope.sender
        → handed_in translator (Received (FromMember from) (named_datagram names boot sealed))
        ≡ Received (FromMember from) [] }
    // It hands in no bytes from another address, or at another node.
    ensures elsewhere { (names : List (List ℕ)) (node boot from : ℕ) (terms : Terms) (translator : TranslatorRecord)
        (sealed : Sealed) → IsTranslatorOf names node terms translator → IsReadable names terms boot sealed
        → (sealed.envelope.sender ≡ from → sealed.envelope.receiver ≡ node → ⊥)
        → handed_in translator (Received (FromMember from) (named_datagram names boot sealed))
        ≡ Received (FromMember from) [] }
    // The node reads the envelope with its own number, or nothing.
    ensures read { (terms : Terms) (envelope : Envelope) → length terms.seats ≤ 10000 → IsSpelled envelope
        → let number = own_number terms.seats (token_of envelope.message) in
        envelope_at bare (bytes_for envelope number) ≡ option_map (numbered_envelope envelope) number }
    // What it reads is the same envelope under canonical tokens.
    ensures same { (terms : Terms) (envelope : Envelope) (number : ℕ)
        → own_number terms.seats (token_of envelope.message) ≡ Some number
        → named_envelope terms.seats (numbered_envelope envelope number) ≡ envelope }
{}

/// Ports: a process over a translator reads what came below, and offers its envelopes below by their names.
///
/// The translator received the events of `calls`, and the process's offers are among them.
pub fn named_ports_tell_envelopes()
    // Each input from a member's address is what the translator handed in for one of the events.
    ensures inputs { (names : List (List ℕ)) (setting : Setting) (node boot : ℕ) (known : List ℕ) (terms : Terms)
        (found : Store) (taken : List NodeEvent) (calls : List PortEvent) (left : Content)
        → IsProcess setting node terms bare found taken
        (handed_events (first_translator names node terms boot known) calls) left
        → (place from : ℕ) (read : Option Envelope) → slice_get taken place ≡ Some (Peer from read)
        → ReadsEvent names node terms calls from read }
    // The same holds of each part of a process in parts.
    ensures inputs_in_parts { (names : List (List ℕ)) (setting : Setting) (node boot : ℕ) (known : List ℕ)
        (terms : Terms) (found : Store) (parts : List Part) (calls : List PortEvent) (left : Content)
        → IsProcessIn setting node terms bare found parts left
        → entries_in parts ≡ handed_events (first_translator names node terms boot known) calls
        → (i place from : ℕ) (part : Part) (read : Option Envelope) → slice_get parts i ≡ Some part
        → slice_get part.taken place ≡ Some (Peer from read) → ReadsEvent names node terms calls from read }
    // It is unforged if all bytes from the member's address that tell a vote were offered before.
    ensures reads { (names : List (List ℕ)) (node from : ℕ) (terms : Terms) (calls : List PortEvent)
        (offered : List Output) (read : Option Envelope) → ReadsEvent names node terms calls from read
        → ((bytes : List ℕ) → Has calls (Received (FromMember from) bytes) → TellsVote names node terms from bytes
        → WereOffered names terms.key offered bytes)
        → ReadsOffered names node terms offered from read }
    // Bytes that tell a vote are a datagram of a vote from the member. No datagram of floors tells one.
    ensures votes { (names : List (List ℕ)) (node from : ℕ) (terms : Terms) (bytes : List ℕ)
        → TellsVote names node terms from bytes → IsVoteFor terms.key from node bytes }
    // The offers below are those of the process in order, each envelope as its datagram under canonical tokens.
    ensures offers { (names : List (List ℕ)) (node boot : ℕ) (known : List ℕ) (terms : Terms)
        (calls : List PortEvent) (own : List OwnOutput) → AreSeated terms own
        → map (offer_of_output bare) own
        ≡ offers_in (handed_events (first_translator names node terms boot known) calls)
        → offers_in (below_events (first_translator names node terms boot known) calls)
        ≡ map (named_offer names terms boot) own }
{}

/// Other rows: a seated store leaves the rows without a seat as they are, at every call.
///
/// A stop leaves below the first content with what is seen at the seats.
pub fn seated_stores_keep_other_rows<S: FloorStore>()
    ensures start { (seats : List ℕ) (store : S) → IsSettled (S.held store)
        → KeepsOthers S.held seats (S.held store).content store }
    ensures puts { (first : Content) (old new : SeatedRecord S) (token : ℕ) (row : RowRecord)
        (pass : Option PassRecord) (result : Result (Unit {0}) StoreFault)
        → KeepsOthers S.held old.seats first old.inner → AreSeats (length first.rows) old.seats
        → token < length old.seats → PutsBelow S.held old new token row pass result
        → KeepsOthers S.held old.seats first new.inner }
    ensures commits { (first : Content) (old new : SeatedRecord S) (result : Result (Unit {0}) StoreFault)
        → KeepsOthers S.held old.seats first old.inner → IsPassedOn (Commits S.held) old new result
        → KeepsOthers S.held old.seats first new.inner }
    ensures raises { (first : Content) (old new : SeatedRecord S) (result : Result ℕ StoreFault)
        → KeepsOthers S.held old.seats first old.inner → IsPassedOn (RaisesBoot S.held) old new result
        → KeepsOthers S.held old.seats first new.inner }
    ensures leaves { (first seen : Content) (store : SeatedRecord S)
        → KeepsOthers S.held store.seats first store.inner → (S.held store.inner).is_clean
        → (seated_held S.held store).leaves seen → LeavesUnder S.held store.seats first seen store.inner }
{}

/// Unforged datagrams: if no datagram of a vote by names is forged, byte for byte, the laws of histories hold.
///
/// Only a datagram that a translator reads under its process's key, from a member's address, can be forged. It is
/// unforged if it only tells a floor, or if a process offered exactly its bytes before, under the same key.
pub fn unforged_names_are_genuine()
    ensures { (names : List (List ℕ)) (setting : Setting) (history : List Action) → IsSized names setting
        → IsUnforgedHistory names setting history → IsHistory setting history }
{
    rulings_have_grounds();
}

/// Safety by names: if no vote by names is forged, acceptances and answers keep the promises of `book_law`.
///
/// Floors may be told by anybody, singly and in bulk.
pub fn unforged_names_are_safe()
    ensures single_use { (names : List (List ℕ)) (setting : Setting) (history : List Action) → IsSized names setting
        → IsUnforgedHistory names setting history → HaveSingleUse (accepted_in setting history) }
    ensures in_order { (names : List (List ℕ)) (setting : Setting) (history : List Action) → IsSized names setting
        → IsUnforgedHistory names setting history → KeepRealTimeOrder (accepted_in setting history) }
    ensures majority { (names : List (List ℕ)) (setting : Setting) (history : List Action) → IsSized names setting
        → IsUnforgedHistory names setting history
        → HaveMajority setting.n (floor_in setting history) (accepted_in setting history) }
    ensures told { (names : List (List ℕ)) (setting : Setting) (history : List Action) → IsSized names setting
        → IsUnforgedHistory names setting history → AnswerTruly setting history (answered_in setting history) }
    ensures justified { (names : List (List ℕ)) (setting : Setting) (history : List Action) → IsSized names setting
        → IsUnforgedHistory names setting history → JustifiesAll setting history (accepted_in setting history) }
    ensures spaced { (names : List (List ℕ)) (setting : Setting) (history : List Action) (node token : ℕ)
        → IsSized names setting → IsUnforgedHistory names setting history
        → SpacesFailures (results_in setting history node token) }
    // Each acceptance that no stop cut off has its `OK`.
    ensures answered { (names : List (List ℕ)) (setting : Setting) (history : List Action) → IsSized names setting
        → IsUnforgedHistory names setting history → AnswersAll setting history (accepted_in setting history) }
{
    books_are_safe();
    unforged_names_are_genuine();
}

/// Devices by names: if no vote by names is forged, no factor of a device is accepted twice, whatever its names are.
///
/// `seed` gives the device of each canonical token.
pub fn unforged_devices_are_safe()
    ensures single_use { (names : List (List ℕ)) (seed : ℕ → ℕ) (setting : Setting) (history : List Action)
        → IsSized names setting → IsUnforgedHistory names setting history → OpensGreatest seed setting history
        → HaveSingleUseOfSeeds seed (accepted_in setting history) }
    ensures in_order { (names : List (List ℕ)) (seed : ℕ → ℕ) (setting : Setting) (history : List Action)
        → IsSized names setting → IsUnforgedHistory names setting history → OpensGreatest seed setting history
        → KeepOrderOfSeeds seed (accepted_in setting history) }
    ensures majority { (names : List (List ℕ)) (seed : ℕ → ℕ) (setting : Setting) (history : List Action)
        → IsSized names setting → IsUnforgedHistory names setting history → OpensGreatest seed setting history
        → AreGivenUp setting.n (floor_in setting history) seed (accepted_in setting history) }
{
    devices_are_safe();
    unforged_names_are_genuine();
}

ghost use Rattle.std.specs.Prelude.{◌≡◌, ◌<◌, ◌≤◌, ◌^◌, ◌∷◌, ◌++◌, [], ℕ, List, Some, length, max, slice_get, slice_index, take};
ghost use Rattle.datagram_port.specs.Port.{Offered, PortEvent, Received};
ghost use Rattle.datagram_port.specs.declared.port.Sender.TheVariants.{Peer};
ghost use Rattle.named_wire.specs.Bytes.{AreBytes};
ghost use Rattle.named_wire.specs.Datagram as named_spec;
ghost use Rattle.named_wire.specs.declared.head.Head.{Head};
ghost use Rattle.named_wire.specs.declared.head.Kind.{Kind};
ghost use Rattle.token_names.specs.Names.{AreDistinct};
ghost use Rattle.vote_core.specs.declared.message.Message.{Message};
ghost use Rattle.vote_wire.specs.Body.{HasSpelling};
ghost use Rattle.vote_wire.specs.Datagram.{datagram_at, datagram_bytes};
ghost use Rattle.vote_wire.specs.Key.{bare};
ghost use Rattle.named_port.specs.Runs.{Has, IsNamedOf, IsOfferOf, IsTranslated, after_events, below_events, greatest_boot, handed_events};
ghost use Rattle.named_port.specs.Translator.{handed_in, new_translator};
ghost use Rattle.named_port.specs.Wire.{named_at, named_bytes, numbered_at, numbered_of, packed, token_of, unpacked};

/// One spelling: a message has one numbered and one named datagram, and each is the translation of the other.
///
/// The numbered one is under the bare key, and the named one under the cluster's.
///
/// If a node reads a message in the numbered datagram of a named one, the named one says the same by name.
pub fn named_one_spelling()
    ensures named { (key name : List ℕ) (names : List (List ℕ)) (boot from to : ℕ) (message : Message) →
        HasSpelling from to message → slice_get names (token_of message) ≡ Some name →
        named_at key names boot (datagram_bytes bare from to message)
        ≡ Some (named_bytes key boot from to name message) }
    ensures numbered { (key name : List ℕ) (names : List (List ℕ)) (boot from to : ℕ) (message : Message) →
        HasSpelling from to message → boot < 2 ^ 64 → length name ≡ 16 → AreDistinct names →
        slice_get names (token_of message) ≡ Some name →
        numbered_at key names (named_bytes key boot from to name message)
        ≡ Some (datagram_bytes bare from to message) }
    ensures read { (key bytes body out : List ℕ) (names : List (List ℕ)) (head : Head) (from to : ℕ)
        (message : Message) → length names ≤ 10000 → AreBytes bytes →
        named_spec.datagram_at key bytes ≡ Some (head, body) → numbered_of names head body ≡ Some out →
        datagram_at bare out ≡ Some (from, to, message) → IsNamedOf key names head bytes from to message }
{}

/// Packed fields: fields of a numbered datagram that are packed are unpacked to the same, and the other way.
///
/// So no packed fields tell those of another message.
pub fn packed_fields_tell()
    ensures again { (kind : Kind) (from to : ℕ) (fields short : List ℕ) → AreBytes fields →
        packed kind from to fields ≡ Some short → unpacked kind from to short ≡ Some fields }
    ensures back { (kind : Kind) (from to : ℕ) (short fields : List ℕ) → from < 256 → to < 256 → AreBytes short →
        unpacked kind from to short ≡ Some fields → packed kind from to fields ≡ Some short }
{}

/// Boots: a translator's boot of a member is the greatest one that it knew at its start or that the member's datagrams
/// told it, in every execution.
pub fn boots_are_the_greatest()
    ensures { (key : List ℕ) (names : List (List ℕ)) (known : List ℕ) (me boot member : ℕ)
        (events : List PortEvent) → length known ≡ 10 →
        slice_index (after_events (new_translator key names me boot known) events).heard member
        ≡ max (slice_index known member) (greatest_boot key me member events) }
{}

/// Translations: each datagram of a member that is handed in with bytes is the translation of one that came from it.
///
/// The datagram is under the key, and from the member to the node. No greater boot of the member was known at the
/// start, and no earlier event told one.
pub fn what_is_handed_in_came()
    ensures next { (key bytes known : List ℕ) (names : List (List ℕ)) (me boot member : ℕ)
        (before : List PortEvent) (event : PortEvent) → length known ≡ 10 →
        handed_in (after_events (new_translator key names me boot known) before) event
        ≡ Received (Peer member) bytes → (bytes ≡ [] → ⊥) →
        IsTranslated key names me known before event member bytes }
    ensures at_each_place { (key bytes known : List ℕ) (names : List (List ℕ)) (me boot place member : ℕ)
        (calls : List PortEvent) → length known ≡ 10 →
        slice_get (handed_events (new_translator key names me boot known) calls) place
        ≡ Some (Received (Peer member) bytes) → (bytes ≡ [] → ⊥) →
        (event : PortEvent) × (slice_get calls place ≡ Some event)
        × IsTranslated key names me known (take place calls) event member bytes }
{}

/// Offers: each datagram for a member that the port below is offered is the translation of one that the node offered.
pub fn what_is_offered_is_the_nodes()
    ensures { (key bytes known : List ℕ) (names : List (List ℕ)) (me boot member : ℕ) (calls : List PortEvent) →
        Has (below_events (new_translator key names me boot known) calls) (Offered (Peer member) bytes) →
        IsOfferOf key names boot calls member bytes }
{}

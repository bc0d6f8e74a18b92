ghost use Rattle.std.specs.Prelude.{◌≡◌, ◌⊎◌, ◌↔◌, ◌<◌, ◌≤◌, ℕ, List, [], Some, false, length, slice_index, true};
ghost use Rattle.datagram_port.specs.Port.{Offered, PortEvent, Quiet, Received};
ghost use Rattle.datagram_port.specs.declared.port.Sender.{Sender};
ghost use Rattle.datagram_port.specs.declared.port.Sender.TheVariants.{Peer};
ghost use Rattle.named_port.specs.Names.{number_of};
ghost use Rattle.named_port.specs.Translator.{is_older};
ghost use Rattle.named_wire.specs.Bytes.{AreBytes};
ghost use Rattle.gatekeeping.specs.declared.gatekeeper.Fell.{Fell};
ghost use Rattle.floor_port.specs.Claims.{is_fallen};
ghost use Rattle.floor_port.specs.Floors.{IsBodyOf, floors_at};
ghost use Rattle.floor_port.specs.Packer.{PackerRecord, StartRecord, after_event, handed_in, new_packer};
ghost use Rattle.floor_port.specs.Promises.{Among, HandsIn, IsInTime, IsNotFresh, TellsFloors, WentBack, above};
ghost use Rattle.floor_port.specs.Rows.{RowsRecord, after_witness, is_fresh, next_floors};
ghost use Rattle.floor_port.specs.Runs.{Call, Offer, after_calls, below_events, fells_over, handed_events, may_make};
ghost use Rattle.floor_port.specs.declared.floor.NamedFloor.{NamedFloor};

/// One spelling: floors have one body, and a body one reading.
pub fn floors_one_spelling()
    ensures { (floors : List NamedFloor) (body : List ℕ) → AreBytes body →
        IsBodyOf floors body ↔ (floors_at body ≡ Some floors) }
{}

/// Floors that are handed in: each event that the port hands in is one that the port below received, an offer of the
/// node, or a floor that a member told under the key. A datagram of a member that went back has no bytes.
pub fn what_is_handed_in_was_told()
    ensures { (key : List ℕ) (names : List (List ℕ)) (me boot members : ℕ) (start : StartRecord) (calls : List Call)
        (event : PortEvent) → may_make (new_packer key names me boot members start) calls ≡ true →
        Among (handed_events (new_packer key names me boot members start) calls) event →
        HandsIn key start.gone_back me calls event }
{}

/// Floors that are told: each offer to the port below is one of the node, or tells floors of the node.
pub fn what_is_told_is_the_nodes()
    ensures { (key : List ℕ) (names : List (List ℕ)) (me boot members : ℕ) (start : StartRecord) (calls : List Call)
        (to : Sender) (bytes : List ℕ) → may_make (new_packer key names me boot members start) calls ≡ true →
        Among (below_events (new_packer key names me boot members start) calls) (Offered to bytes) →
        Among calls (Offer to bytes) ⊎ TellsFloors key names me boot start.floors calls to bytes }
{}

/// Noted floors are taken: a datagram that raises a floor which the port knows is of no boot that the port by names
/// above drops, and neither are the floors that are left to hand in.
///
/// The port above knows the same boots at its start, and receives what the port hands in.
pub fn noted_floors_are_taken()
    ensures noted { (key : List ℕ) (names : List (List ℕ)) (me boot members member row : ℕ) (start : StartRecord)
        (calls : List Call) (bytes : List ℕ) → length start.known ≡ 10 →
        may_make (new_packer key names me boot members start) calls ≡ true →
        slice_index (after_calls (new_packer key names me boot members start) calls).rows.known row
        < slice_index (after_event (after_calls (new_packer key names me boot members start) calls)
        (Received (Peer member) bytes)).rows.known row →
        IsInTime key (above (new_packer key names me boot members start) calls) bytes }
    ensures left { (key : List ℕ) (names : List (List ℕ)) (me boot members : ℕ) (start : StartRecord)
        (calls : List Call) → length start.known ≡ 10 →
        may_make (new_packer key names me boot members start) calls ≡ true →
        1 ≤ length (after_calls (new_packer key names me boot members start) calls).pending.floors →
        is_older (above (new_packer key names me boot members start) calls).heard
        (after_calls (new_packer key names me boot members start) calls).pending.head ≡ false }
{}

/// Floors rise: no call lowers a floor that the port tells, or one that it knows.
pub fn floors_rise()
    ensures told { (packer : PackerRecord) (calls : List Call) (row : ℕ) →
        slice_index packer.rows.told row ≤ slice_index (after_calls packer calls).rows.told row }
    ensures known { (packer : PackerRecord) (calls : List Call) (row : ℕ) →
        slice_index packer.rows.known row ≤ slice_index (after_calls packer calls).rows.known row }
    ensures from_the_start { (key : List ℕ) (names : List (List ℕ)) (me boot members : ℕ) (start : StartRecord)
        (calls : List Call) (row : ℕ) →
        slice_index start.floors row
        ≤ slice_index (after_calls (new_packer key names me boot members start) calls).rows.told row }
{}

/// Fallen members are silent: after a floor of a member fell, each datagram of it is handed in without bytes. What it
/// sends changes nothing, and it stays fallen.
pub fn fallen_members_are_silent()
    ensures without_bytes { (packer : PackerRecord) (member : ℕ) (bytes : List ℕ) →
        is_fallen packer.claims member ≡ true →
        handed_in packer (Received (Peer member) bytes) ≡ Received (Peer member) [] }
    ensures changes_nothing { (packer : PackerRecord) (member : ℕ) (bytes : List ℕ) →
        is_fallen packer.claims member ≡ true → after_event packer (Received (Peer member) bytes) ≡ packer }
    ensures stays { (packer : PackerRecord) (calls : List Call) (member : ℕ) →
        is_fallen packer.claims member ≡ true → is_fallen (after_calls packer calls).claims member ≡ true }
    ensures in_all_executions { (key : List ℕ) (names : List (List ℕ)) (me boot members : ℕ) (start : StartRecord)
        (before calls : List Call) (member : ℕ) (bytes : List ℕ) →
        is_fallen (after_calls (new_packer key names me boot members start) before).claims member ≡ true →
        Among (handed_events (after_calls (new_packer key names me boot members start) before) calls)
        (Received (Peer member) bytes) → bytes ≡ [] }
{}

/// Falls are true: each fall that a log is told of is of a member that told a lower floor of the token in a later boot.
pub fn falls_are_true()
    ensures { (key : List ℕ) (names : List (List ℕ)) (me boot members : ℕ) (start : StartRecord) (calls : List Call)
        (fell : Fell) → Among (fells_over (new_packer key names me boot members start) calls) fell →
        WentBack key me calls fell.member fell.name }
{}

/// Fresh floors wait: a floor that is told next is that of a row that isn't fresh. A witness that raises a floor makes
/// its row fresh, if fewer than 64 are. After a quiet turn no row is fresh.
pub fn fresh_floors_wait()
    ensures waits { (rows : RowsRecord) (floor : NamedFloor) → Among (next_floors rows) floor → IsNotFresh rows floor }
    ensures raised { (rows : RowsRecord) (floor : NamedFloor) (row : ℕ) →
        number_of rows.names floor.name ≡ Some row → slice_index rows.told row < floor.next → length rows.fresh < 64 →
        is_fresh (after_witness rows (Some floor)).fresh row ≡ true }
    ensures quiet { (packer : PackerRecord) → (after_event packer Quiet).rows.fresh ≡ [] }
{}

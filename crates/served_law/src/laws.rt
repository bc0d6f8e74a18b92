//! The laws about stores that are opened by names, and about nodes that are served over them.

ghost use Rattle.std.specs.Prelude.{◌≡◌, ℕ, true, List, Option, Some, Result, length, slice_get};
ghost use Rattle.sqlite.specs.Held.{state};
ghost use Rattle.sqlite.specs.State.{HasCleanDisk};
ghost use Rattle.otp_core.specs.Limits.{Limits};
ghost use Rattle.token_file.specs.Credential.{Credential};
ghost use Rattle.token_names.specs.Names.{names_of};
ghost use Rattle.floor_store.specs.Content.{Content};
ghost use Rattle.floor_sql.specs.Held.{SqlHeld, sql_held};
ghost use Rattle.roster_sql.specs.Roster.{BondRecord};
ghost use Rattle.roster_sql.specs.declared.entry.Entry.{Entry};
ghost use Rattle.seated_store.specs.Seated.{SeatedRecord};
ghost use Rattle.named_port.specs.Translator.{new_translator};
ghost use Rattle.named_store.specs.declared.opening.RowCounts.{RowCounts};
ghost use Rattle.oath_node.specs.Machine.{Peer};
ghost use Rattle.oath_node.specs.declared.turns.Served.{Served};
ghost use Rattle.vote_core.specs.Schedule.{Envelope, is_member};
ghost use Rattle.vote_wire.specs.Key.{bare};
ghost use Rattle.node_serving.specs.NodeKey.{tag_key};
ghost use Rattle.node_serving.specs.Stretches.{unasked};
ghost use Rattle.oathd_database.specs.declared.fault.Fault.{Fault};
ghost use Rattle.node_serving.specs.declared.serving.Serving.{Serving};
ghost use Rattle.oathd_roster.specs.Opened.{HasOpenedNamed};
ghost use Rattle.store_serving.specs.Served.{HasServedNamed};
ghost use Rattle.oathd_roster.specs.declared.cluster.NamedCluster.{NamedCluster};
ghost use Rattle.book_law.specs.Answered.{AnswersAll};
ghost use Rattle.book_law.specs.Lives.{Setting, Store, Terms, accepted_in, floor_in};
ghost use Rattle.book_law.specs.Seeds.{AreGreatest, HaveSeedsOnce, UsesGreatest};
ghost use Rattle.book_law.specs.Uses.{IsSeatedMember, IsTrueReply, Part, StoreUse, first_store};
ghost use Rattle.name_law.specs.Ports.{ReadsEvent, first_translator};
ghost use Rattle.served_law.specs.Devices.{HaveDevices, HaveDevicesInStores, HaveOneSeed};
ghost use Rattle.served_law.specs.Enrolled.{IsEnrolledFrom};
ghost use Rattle.admit_core.specs.Throttle.{SpacesFailures};
ghost use Rattle.cluster_sim.specs.Answered.{IsOk};
ghost use Rattle.otp_core.specs.Acceptance.{HaveSingleUse, KeepRealTimeOrder};
ghost use Rattle.seat_law.specs.Seeds.{AreGivenUp, HaveSingleUseOfSeeds, KeepOrderOfSeeds};
ghost use Rattle.vote_core.specs.Safety.{HaveMajority};
ghost use Rattle.book_law.specs.Justified.{JustifiesAll};
ghost use Rattle.book_law.specs.Results.{results_in};
ghost use Rattle.name_law.specs.Unforged.{IsSized};
ghost use Rattle.order_law.specs.Interleavings.{AreOfMembers, AreReplaced, Item, history_of, steps_at};
ghost use Rattle.order_law.specs.Steps.{Replies, Says};
ghost use Rattle.served_law.specs.Orders.{HasNamedSteps, HasStepsOf, IsOrderOf, IsRunInOrder};
ghost use Rattle.served_law.specs.Runs.{AreAllNamedStores, AreNamedUses, AreOf, HasUsesOf, IsOneUse, IsSound, NamedStores, NamedUse, terms_in, view_of};
ghost use Rattle.served_law.specs.Seated.{HasKnownRows, HasRows, IsSeatedStore, served_terms, store_by_names, tokens_of};
ghost use Rattle.served_law.specs.Uses.{AreFirstOf, Keeps};

use name_law::named_ports_tell_envelopes;
use named_order_law::{unforged_interleavings_are_safe, unforged_interleavings_keep_devices};
use node_serving::Stop;
use oathd_database::Database;
use sqlite::Alter;

/// Rows: the tables of a store that is opened by names have its content and one list of rows.
pub fn opened_names_have_rows<S: Alter + Drop, D: Database<S>>()
    ensures some { (cluster : NamedCluster) (limits : Limits) (moment node : ℕ) (book : List Credential)
        (floors : List ℕ) (store : SeatedRecord (SqlHeld S)) (counts : RowCounts)
        → HasOpenedNamed S.Store D.finds cluster limits moment node book floors store counts
        → HasCleanDisk (state S.Store store.inner.conn)
        → (rows : List Entry) × HasRows S.Store cluster.bond store.inner rows }
    ensures one { (own other : BondRecord) (store : SqlHeld S) (rows others : List Entry)
        → HasRows S.Store own store rows → HasRows S.Store other store others → rows ≡ others }
{}

/// Seats: a store that is opened by names is a store of a history, in which each row has the token of its name.
///
/// The tokens of the users file have the same seats in both. `names` are the names of all canonical tokens, and the
/// name of each row is among them.
pub fn opened_names_are_seated<S: Alter + Drop, D: Database<S>>()
    ensures { (cluster : NamedCluster) (limits : Limits) (moment node : ℕ) (book : List Credential) (floors : List ℕ)
        (store : SeatedRecord (SqlHeld S)) (counts : RowCounts) (names : List (List ℕ)) (rows : List Entry)
        (terms : Terms) → HasOpenedNamed S.Store D.finds cluster limits moment node book floors store counts
        → HasKnownRows S.Store cluster.bond names store.inner rows
        → terms.config.book ≡ book → terms.seats ≡ tokens_of names (names_of cluster.salt book)
        → IsSeatedStore (sql_held S.Store) terms (store_by_names names rows store.inner.mirror) store }
{}

/// Openings: the rows that an opening by names raises are raises of the history, and the rows that it adds are
/// enrolments.
///
/// The raises come first, and both come before the process. So the process finds what the use before it left, with
/// higher floors in some rows, followed by the new rows.
pub fn opened_names_are_enrolled<S: Alter + Drop, D: Database<S>>()
    ensures { (cluster : NamedCluster) (limits : Limits) (moment node : ℕ) (book : List Credential) (floors : List ℕ)
        (store : SeatedRecord (SqlHeld S)) (counts : RowCounts) (names : List (List ℕ)) (rows : List Entry)
        (setting : Setting)
        (opened : HasOpenedNamed S.Store D.finds cluster limits moment node book floors store counts)
        → HasKnownRows S.Store cluster.bond names store.inner rows → setting.tokens ≡ length names
        → IsEnrolledFrom S.Store setting node cluster.bond names opened.conn store.inner rows }
{}

/// Processes: a node that `oathd` opened over a store by names is a member of a history over that store.
///
/// `served_nodes_are_processes` asks this of a node before its turns.
pub fn served_names_are_seated<S: Alter + Drop, D: Database<S>, U: Stop>()
    ensures served { (cluster : NamedCluster) (moment : ℕ) (serving : Serving) (until : U)
        (result : Result Served Fault) (text : List ℕ) (names : List (List ℕ)) (rows : List Entry) (setting : Setting)
        (run : HasServedNamed S.Store D.finds cluster moment serving (U.answers until) result text)
        → HasKnownRows S.Store cluster.bond names run.found.inner rows → setting.n ≡ serving.place.n
        → IsSeatedMember (sql_held S.Store) setting serving.place.me
        (served_terms names cluster serving run.import.book) bare
        (store_by_names names rows run.found.inner.mirror) run.found run.over.first }
    // The same if the command ended with a fault.
    ensures failed { (cluster : NamedCluster) (moment : ℕ) (serving : Serving)
        (result : Result Served Fault) (text : List ℕ) (names : List (List ℕ)) (rows : List Entry) (setting : Setting)
        (run : HasServedNamed S.Store D.finds cluster moment serving unasked result text)
        → HasKnownRows S.Store cluster.bond names run.found.inner rows → setting.n ≡ serving.place.n
        → IsSeatedMember (sql_held S.Store) setting serving.place.me
        (served_terms names cluster serving run.import.book) bare
        (store_by_names names rows run.found.inner.mirror) run.found run.over.first }
{}

/// Translators: the translator of a node that is served by names is the one of its process in that history.
///
/// So `named_ports_tell_envelopes` says which envelopes its datagrams tell.
pub fn named_translators_are_first<S: Alter + Drop, D: Database<S>>()
    ensures { (cluster : NamedCluster) (moment node : ℕ) (serving : Serving) (book : List Credential)
        (floors : List ℕ) (store : SeatedRecord (SqlHeld S)) (counts : RowCounts) (names : List (List ℕ))
        (rows : List Entry) (boot : ℕ) (known : List ℕ)
        → HasOpenedNamed S.Store D.finds cluster serving.settings moment node book floors store counts
        → HasKnownRows S.Store cluster.bond names store.inner rows
        → new_translator (tag_key serving.key book) (names_of cluster.salt book) node boot known
        ≡ first_translator names node (served_terms names cluster serving book) boot known }
{}

/// Runs: the whole run of a command that serves a node by names is one use of its store in a history.
///
/// It is a process in parts. Between two of them an operator may have had it unlock a token. That the rows without a
/// token of the users file stay is said call by call (`seated_stores_keep_other_rows`). No clause says how the events
/// that came to the translator came through the ports below it, which also take floors in bulk.
pub fn served_names_are_processes<S: Alter + Drop, D: Database<S>, U: Stop>()
    ensures served { (cluster : NamedCluster) (moment : ℕ) (serving : Serving) (until : U)
        (result : Result Served Fault) (text : List ℕ) (names : List (List ℕ)) (rows : List Entry) (setting : Setting)
        (left : Content)
        (run : HasServedNamed S.Store D.finds cluster moment serving (U.answers until) result text)
        → IsSound run setting names rows → (view_of S.Store run.over.last.store).leaves left
        → IsOneUse run setting names rows left }
    // The same if the command ended with a fault.
    ensures failed { (cluster : NamedCluster) (moment : ℕ) (serving : Serving)
        (result : Result Served Fault) (text : List ℕ) (names : List (List ℕ)) (rows : List Entry) (setting : Setting)
        (left : Content) (run : HasServedNamed S.Store D.finds cluster moment serving unasked result text)
        → IsSound run setting names rows → (view_of S.Store run.over.last.store).leaves left
        → IsOneUse run setting names rows left }
    // Each input from a member's address is what the translator handed in for one of the events that came to it.
    ensures inputs { (cluster : NamedCluster) (moment : ℕ) (serving : Serving) (until : U)
        (result : Result Served Fault) (text : List ℕ) (names : List (List ℕ)) (rows : List Entry) (setting : Setting)
        (left : Content)
        (run : HasServedNamed S.Store D.finds cluster moment serving (U.answers until) result text)
        (one : IsOneUse run setting names rows left) (i place from : ℕ) (part : Part) (read : Option Envelope)
        → slice_get one.was.parts i ≡ Some part → slice_get part.taken place ≡ Some (Peer from read)
        → ReadsEvent names serving.place.me (terms_in run names) run.over.served_is.serves.calls from read }
{
    named_ports_tell_envelopes();
}

/// Devices: each process of a run by names finds the greatest floors of the devices of its users file.
///
/// `uses_open_stores` and `devices_are_safe` ask this of the processes among the uses.
pub fn served_names_open_greatest<S: Alter + Drop, D: Database<S>, U: Stop>()
    ensures opened { (cluster : NamedCluster) (limits : Limits) (moment node : ℕ) (book : List Credential)
        (floors : List ℕ) (store : SeatedRecord (SqlHeld S)) (counts : RowCounts) (names : List (List ℕ))
        (rows : List Entry) (seed : ℕ → ℕ)
        → HasOpenedNamed S.Store D.finds cluster limits moment node book floors store counts
        → HasKnownRows S.Store cluster.bond names store.inner rows → HaveOneSeed seed names rows
        → HaveSeedsOnce seed (tokens_of names (names_of cluster.salt book))
        → AreGreatest seed (tokens_of names (names_of cluster.salt book))
        (store_by_names names rows store.inner.mirror) }
    ensures uses { (setting : Setting) (node : ℕ) (names : List (List ℕ)) (seed : ℕ → ℕ) (store : Store)
        (named : List (NamedUse U)) (are : AreNamedUses S.Store D.finds U.answers setting node names store named)
        → HaveDevices S.Store D.finds U.answers setting node names seed store named are → (uses : List StoreUse)
        → AreOf S.Store D.finds U.answers setting node names store named are uses
        → UsesGreatest seed setting store uses }
{}

/// Uses: all runs by names over a member's store are uses of `book_law`, with any commands between them.
///
/// Each run finds what the use before it left. It raises rows of the store, and gives it new rows by enrolments.
pub fn served_names_are_uses<S: Alter + Drop, D: Database<S>, U: Stop>()
    ensures { (setting : Setting) (node : ℕ) (names : List (List ℕ)) (store : Store) (named : List (NamedUse U))
        (are : AreNamedUses S.Store D.finds U.answers setting node names store named)
        → setting.tokens ≡ length names
        → HasUsesOf S.Store D.finds U.answers setting node names store named are }
{}

/// Orders: all runs by names over the members' stores are steps in the order in which they happened.
///
/// At any moment, each order of what the members did so far that keeps each member's own is an interleaving of
/// `order_law`. If each vote that is heard was said before in it, `served_names_are_safe` says what holds of it.
pub fn served_names_have_steps<S: Alter + Drop, D: Database<S>, U: Stop>()
    ensures served { (cluster : NamedCluster) (moment : ℕ) (serving : Serving) (until : U)
        (result : Result Served Fault) (text : List ℕ) (names : List (List ℕ)) (rows : List Entry) (setting : Setting)
        (left : Content)
        (run : HasServedNamed S.Store D.finds cluster moment serving (U.answers until) result text)
        → IsSound run setting names rows → (view_of S.Store run.over.last.store).leaves left
        → IsRunInOrder run setting names rows left }
    // The same if the command ended with a fault.
    ensures failed { (cluster : NamedCluster) (moment : ℕ) (serving : Serving)
        (result : Result Served Fault) (text : List ℕ) (names : List (List ℕ)) (rows : List Entry) (setting : Setting)
        (left : Content) (run : HasServedNamed S.Store D.finds cluster moment serving unasked result text)
        → IsSound run setting names rows → (view_of S.Store run.over.last.store).leaves left
        → IsRunInOrder run setting names rows left }
    ensures uses { (setting : Setting) (node : ℕ) (names : List (List ℕ)) (store : Store) (named : List (NamedUse U))
        (are : AreNamedUses S.Store D.finds U.answers setting node names store named)
        → setting.tokens ≡ length names
        → HasStepsOf S.Store D.finds U.answers setting node names store named are }
    // A store that was lost has its steps up to the loss, and the next one its own.
    ensures members { (setting : Setting) (names : List (List ℕ)) (stores : ℕ → NamedStores U)
        (are : AreAllNamedStores S.Store D.finds U.answers setting names stores) → setting.tokens ≡ length names
        → HasNamedSteps S.Store D.finds U.answers setting names stores are }
    // If all members kept their first stores, no rule of replacements is asked for.
    ensures kept { (setting : Setting) (names : List (List ℕ)) (named : ℕ → List (NamedUse U))
        (are : AreAllNamedStores S.Store D.finds U.answers setting names (λ node. Keeps (named node)))
        (has : HasNamedSteps S.Store D.finds U.answers setting names (λ node. Keeps (named node)) are)
        (items : List Item) → AreOfMembers setting items
        → ((node : ℕ) → is_member setting.n node ≡ true → AreFirstOf (steps_at node items) (has.steps node).steps)
        → AreReplaced setting items }
{}

/// Safety of runs: in each order of all members' runs by names, acceptances and answers keep all promises.
///
/// A vote that is heard was said before in the order, byte for byte: nobody has the key, and time goes forward. A lost
/// store is replaced if the rule of the votes allows it, and the next run finds the replacement as it was made.
pub fn served_names_are_safe<S: Alter + Drop, D: Database<S>, U: Stop>()
    ensures single_use { (setting : Setting) (names : List (List ℕ)) (stores : ℕ → NamedStores U)
        (are : AreAllNamedStores S.Store D.finds U.answers setting names stores) (items : List Item)
        → IsSized names setting → IsOrderOf S.Store D.finds U.answers setting names stores are items
        → HaveSingleUse (accepted_in setting (history_of items)) }
    ensures in_order { (setting : Setting) (names : List (List ℕ)) (stores : ℕ → NamedStores U)
        (are : AreAllNamedStores S.Store D.finds U.answers setting names stores) (items : List Item)
        → IsSized names setting → IsOrderOf S.Store D.finds U.answers setting names stores are items
        → KeepRealTimeOrder (accepted_in setting (history_of items)) }
    ensures majority { (setting : Setting) (names : List (List ℕ)) (stores : ℕ → NamedStores U)
        (are : AreAllNamedStores S.Store D.finds U.answers setting names stores) (items : List Item)
        → IsSized names setting → IsOrderOf S.Store D.finds U.answers setting names stores are items
        → HaveMajority setting.n (floor_in setting (history_of items)) (accepted_in setting (history_of items)) }
    ensures justified { (setting : Setting) (names : List (List ℕ)) (stores : ℕ → NamedStores U)
        (are : AreAllNamedStores S.Store D.finds U.answers setting names stores) (items : List Item)
        → IsSized names setting → IsOrderOf S.Store D.finds U.answers setting names stores are items
        → JustifiesAll setting (history_of items) (accepted_in setting (history_of items)) }
    ensures spaced { (setting : Setting) (names : List (List ℕ)) (stores : ℕ → NamedStores U)
        (are : AreAllNamedStores S.Store D.finds U.answers setting names stores) (items : List Item) (node token : ℕ)
        → IsSized names setting → IsOrderOf S.Store D.finds U.answers setting names stores are items
        → SpacesFailures (results_in setting (history_of items) node token) }
    // Each acceptance that no stop cut off has its `OK`.
    ensures answered { (setting : Setting) (names : List (List ℕ)) (stores : ℕ → NamedStores U)
        (are : AreAllNamedStores S.Store D.finds U.answers setting names stores) (items : List Item)
        → IsSized names setting → IsOrderOf S.Store D.finds U.answers setting names stores are items
        → AnswersAll setting (history_of items) (accepted_in setting (history_of items)) }
    // Each reply that a member's port recorded, and that begins as an `OK`, belongs to an acceptance.
    ensures replied { (setting : Setting) (names : List (List ℕ)) (stores : ℕ → NamedStores U)
        (are : AreAllNamedStores S.Store D.finds U.answers setting names stores) (items : List Item)
        (i node client : ℕ) (bytes : List ℕ)
        → IsSized names setting → IsOrderOf S.Store D.finds U.answers setting names stores are items
        → slice_get items i ≡ Some (record { node = node; step = Says (Replies client bytes) }) → IsOk bytes
        → IsTrueReply setting (history_of items) node client bytes }
{
    unforged_interleavings_are_safe();
}

/// Single use by device: in each order of all members' runs by names, no factor of a device is accepted twice, whatever
/// its names are.
///
/// `seed` gives the device of each name. Votes and lost stores are as in `served_names_are_safe`. No users file of a
/// run has a device twice, and in the store that a run found rows of one device have one seed.
pub fn served_devices_are_safe<S: Alter + Drop, D: Database<S>, U: Stop>()
    ensures single_use { (seed : ℕ → ℕ) (setting : Setting) (names : List (List ℕ)) (stores : ℕ → NamedStores U)
        (are : AreAllNamedStores S.Store D.finds U.answers setting names stores) (items : List Item)
        → IsSized names setting → IsOrderOf S.Store D.finds U.answers setting names stores are items
        → ((node : ℕ) → HaveDevicesInStores S.Store D.finds U.answers setting node names seed
        (first_store setting node) (stores node) (are node))
        → HaveSingleUseOfSeeds seed (accepted_in setting (history_of items)) }
    ensures in_order { (seed : ℕ → ℕ) (setting : Setting) (names : List (List ℕ)) (stores : ℕ → NamedStores U)
        (are : AreAllNamedStores S.Store D.finds U.answers setting names stores) (items : List Item)
        → IsSized names setting → IsOrderOf S.Store D.finds U.answers setting names stores are items
        → ((node : ℕ) → HaveDevicesInStores S.Store D.finds U.answers setting node names seed
        (first_store setting node) (stores node) (are node))
        → KeepOrderOfSeeds seed (accepted_in setting (history_of items)) }
    ensures majority { (seed : ℕ → ℕ) (setting : Setting) (names : List (List ℕ)) (stores : ℕ → NamedStores U)
        (are : AreAllNamedStores S.Store D.finds U.answers setting names stores) (items : List Item)
        → IsSized names setting → IsOrderOf S.Store D.finds U.answers setting names stores are items
        → ((node : ℕ) → HaveDevicesInStores S.Store D.finds U.answers setting node names seed
        (first_store setting node) (stores node) (are node))
        → AreGivenUp setting.n (floor_in setting (history_of items)) seed (accepted_in setting (history_of items)) }
{
    unforged_interleavings_keep_devices();
}

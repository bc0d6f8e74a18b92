ghost use Rattle.std.specs.Prelude.{◌≡◌, ◌⊎◌, ◌≤◌, ◌++◌, ℕ, List, Some, false, length, true};
ghost use Rattle.datagram_port.specs.Port.{Offered, PortEvent};
ghost use Rattle.datagram_port.specs.declared.port.Sender.{Sender};
ghost use Rattle.datagram_port.specs.declared.port.Sender.TheVariants.{Peer};
ghost use Rattle.bundle_port.specs.Bundle.{bundle_bytes, is_bundle, parts_at};
ghost use Rattle.bundle_port.specs.Bundler.{new_bundler, waiting_for};
ghost use Rattle.bundle_port.specs.Promises.{Among, HandsIn, JoinsOffers, all_offered, all_received, are_parts, datagrams_from, left_from, own_offers};
ghost use Rattle.bundle_port.specs.Runs.{Call, Offer, after_calls, below_events, handed_events, may_make};

/// Read back: the parts of the bundle of some parts are these parts.
pub fn parts_are_read_back()
    ensures { (parts : List (List ℕ)) → are_parts parts ≡ true → 1 ≤ length parts →
        length (bundle_bytes parts) ≤ 512 → parts_at (bundle_bytes parts) ≡ Some parts }
{}

/// One spelling: a bundle is the bundle of its parts, so two bundles with the same parts are the same bytes.
pub fn one_spelling()
    ensures spelled { (bytes : List ℕ) (parts : List (List ℕ)) → parts_at bytes ≡ Some parts →
        bytes ≡ bundle_bytes parts }
    ensures same { (first second : List ℕ) (parts : List (List ℕ)) → parts_at first ≡ Some parts →
        parts_at second ≡ Some parts → first ≡ second }
{}

/// What the port hands in came: an event of the port is an event of the port below, or an offer of the node. The third
/// case is a part of a bundle, which the port below received from the same member.
pub fn hands_in()
    ensures { (calls : List Call) (event : PortEvent) → may_make new_bundler calls ≡ true →
        Among (handed_events new_bundler calls) event → HandsIn calls event }
{}

/// Offers are joined: each offer to the port below is one of the node, or a bundle of offers of the node to a member.
pub fn offers_are_joined()
    ensures { (calls : List Call) (to : Sender) (bytes : List ℕ) → may_make new_bundler calls ≡ true →
        Among (below_events new_bundler calls) (Offered to bytes) →
        Among calls (Offer to bytes) ⊎ JoinsOffers calls to bytes }
{}

/// Offers are kept in order: none is lost, repeated or reordered. The parts that the port offers to a member, followed
/// by the parts that wait, are the offers of the node to it. The node offers no bundle to the member.
pub fn parts_are_offers()
    ensures { (member : ℕ) (calls : List Call) → may_make new_bundler calls ≡ true →
        ((bytes : List ℕ) → Among calls (Offer (Peer member) bytes) → is_bundle bytes ≡ false) →
        all_offered member (below_events new_bundler calls) ++ waiting_for (after_calls new_bundler calls) member
        ≡ own_offers member calls }
{}

/// Receives are kept in order: none is lost, repeated or reordered. The datagrams that the port hands in from a member,
/// followed by the parts that are left, are the parts of all that the port below received from it.
pub fn parts_are_handed_in()
    ensures { (member : ℕ) (calls : List Call) → may_make new_bundler calls ≡ true →
        datagrams_from member (handed_events new_bundler calls) ++ left_from (after_calls new_bundler calls) member
        ≡ all_received member (below_events new_bundler calls) }
{}

//! Worked interleavings of nodes that speak by names.

ghost use Rattle.std.specs.Prelude.{◌≡◌, ◌<◌, ◌^◌, ◌+◌, ◌++◌, ℕ, List, [], ◌∷◌, Some, length, map};
ghost use Rattle.vote_core.specs.Books.{blank_opening};
ghost use Rattle.vote_core.specs.Safety.{MayOpen};
ghost use Rattle.vote_core.specs.Schedule.{Envelope};
ghost use Rattle.vote_wire.specs.Key.{bare};
ghost use Rattle.oath_node.specs.Hosted.{envelope_at};
ghost use Rattle.oath_node.specs.Turns.{FromPeer};
ghost use Rattle.book_law.specs.Examples.{first_key, maple_first, second_key, silver_first, silver_row, three};
ghost use Rattle.book_law.specs.Lives.{Enrols, IsOfVote, Raises, Unlocks, Sealed, Setting, Terms, made_boot};
ghost use Rattle.name_law.specs.Datagrams.{IsTranslatorOf, handed_bytes, named_datagram};
ghost use Rattle.name_law.specs.Examples.{user_names};
ghost use Rattle.order_law.specs.Examples.{at, forged, hears_grant, hears_silver, silver_login, taken_early};
ghost use Rattle.order_law.specs.Interleavings.{IsInterleaving, Item, Said, ToClientSaid, WasSaid, first_place, places_after, said_before, said_by};
ghost use Rattle.order_law.specs.Steps.{Closed, Does, Gets, Hears, Live, Loses, Open, Place, Starts};
ghost use Rattle.named_order_law.specs.Bytes.{AreUnforgedItems, HearsUnforged, IsInRange, IsUnforgedInterleaving, IsUnforgedStep, WereSaid};
ghost use Rattle.named_order_law.specs.Examples.{grant_bytes, grant_handed, grant_under, granted_under, listening, translator_under};

use crate::unforged_interleavings_are_genuine;
use name_law::unforged_names_are_genuine;

/// Worked cases and counterexamples: a login with a Grant whose bytes another node said before, or not.
pub fn named_interleavings_are_worked()
    ensures login { IsUnforgedInterleaving user_names three silver_login }
    ensures early { IsUnforgedInterleaving user_names three taken_early → ⊥ }
    ensures forged { IsUnforgedInterleaving user_names three forged → ⊥ }
{
    unforged_names_are_genuine();
    unforged_interleavings_are_genuine();
}

/// Counterexamples: each condition of an unforged interleaving is among those of a step or of an item, or a number
/// breaks it.
pub fn bytes_can_be_broken()
    // What was said before.
    ensures said { (names : List (List ℕ)) (key bytes : List ℕ) (said : List Said)
        (were : WereSaid names key said bytes) → WasSaid said were.sealed }
    ensures key { (names : List (List ℕ)) (key bytes : List ℕ) (said : List Said)
        (were : WereSaid names key said bytes) → were.sealed.key ≡ key }
    ensures boot { (names : List (List ℕ)) (key bytes : List ℕ) (said : List Said)
        (were : WereSaid names key said bytes) → were.boot < 2 ^ 64 }
    ensures bytes { (names : List (List ℕ)) (key bytes : List ℕ) (said : List Said)
        (were : WereSaid names key said bytes) → bytes ≡ named_datagram names were.boot were.sealed }

    // What a process hears.
    ensures port { (names : List (List ℕ)) (node from : ℕ) (live : Live) (said : List Said) (handed : List ℕ)
        → HearsUnforged names node live said from handed → live.port ≡ bare }
    ensures translator { (names : List (List ℕ)) (node from : ℕ) (live : Live) (said : List Said) (handed : List ℕ)
        (hears : HearsUnforged names node live said from handed)
        → IsTranslatorOf names node live.terms hears.translator }
    ensures handed { (names : List (List ℕ)) (node from : ℕ) (live : Live) (said : List Said) (handed : List ℕ)
        (hears : HearsUnforged names node live said from handed)
        → handed ≡ handed_bytes hears.translator from hears.bytes }
    ensures unforged { (names : List (List ℕ)) (node from : ℕ) (live : Live) (said : List Said) (handed : List ℕ)
        (hears : HearsUnforged names node live said from handed) (envelope : Envelope)
        → envelope_at bare handed ≡ Some envelope → IsOfVote envelope.message
        → WereSaid names live.terms.key said hears.bytes }
    ensures step { (names : List (List ℕ)) (node from : ℕ) (live : Live) (said : List Said) (bytes : List ℕ)
        → IsUnforgedStep names node (Open live) said (Hears (FromPeer from bytes))
        → HearsUnforged names node live said from bytes }

    // What is in range.
    ensures enrols { IsInRange (Does (Enrols 1 0 (2 ^ 62))) }
    ensures enrols_above { IsInRange (Does (Enrols 1 0 (2 ^ 62 + 1))) → ⊥ }
    ensures raises_above { IsInRange (Does (Raises 1 0 (2 ^ 62 + 1))) → ⊥ }
    ensures gets_above { IsInRange (Gets 1 (0 ∷ []) (λ token. 2 ^ 62 + 1)) → ⊥ }
    ensures book { (terms : Terms) (port : List ℕ) → length terms.config.book ≡ 10001
        → IsInRange (Starts terms port) → ⊥ }

    // Items.
    ensures item { (names : List (List ℕ)) (setting : Setting) (places : ℕ → Place) (said : List Said) (item : Item)
        (items : List Item) → AreUnforgedItems names setting places said (item ∷ items)
        → IsUnforgedStep names item.node (places item.node) said item.step }
    ensures item_in_range { (names : List (List ℕ)) (setting : Setting) (places : ℕ → Place) (said : List Said)
        (item : Item) (items : List Item) → AreUnforgedItems names setting places said (item ∷ items)
        → IsInRange item.step }
    ensures later_items { (names : List (List ℕ)) (setting : Setting) (places : ℕ → Place) (said : List Said)
        (item : Item) (items : List Item) → AreUnforgedItems names setting places said (item ∷ items)
        → AreUnforgedItems names setting (places_after setting places item)
        (said ++ said_by item.node (places item.node) item.step) items }
    ensures interleaving { (names : List (List ℕ)) (setting : Setting) (items : List Item)
        → IsUnforgedInterleaving names setting items → IsInterleaving setting items }
    ensures starts { (names : List (List ℕ)) (setting : Setting) (items : List Item)
        → IsUnforgedInterleaving names setting items → MayOpen setting.n setting.tokens
        (blank_opening (made_boot setting) (map (λ (sealed : Sealed). sealed.envelope) setting.old)) }
    ensures unforged_items { (names : List (List ℕ)) (setting : Setting) (items : List Item)
        → IsUnforgedInterleaving names setting items
        → AreUnforgedItems names setting (first_place setting) (said_before setting) items }
{}

/// Worked cases and counterexamples: node 1 hears a Grant, and one condition after the other fails alone.
pub fn heard_grants_can_be_broken()
    // What was said before.
    ensures said { WereSaid user_names first_key (granted_under first_key) (grant_bytes 1) }
    ensures said_in_a_later_boot { WereSaid user_names first_key (granted_under first_key) (grant_bytes 5) }
    ensures unsaid { WereSaid user_names first_key [] (grant_bytes 1) → ⊥ }
    ensures said_to_a_client { WereSaid user_names first_key (ToClientSaid 2 7 (grant_bytes 1) ∷ []) (grant_bytes 1)
        → ⊥ }
    ensures said_under_another_key { WereSaid user_names first_key (granted_under second_key)
        (named_datagram user_names 1 (grant_under second_key)) → ⊥ }
    ensures heard_under_another_key { WereSaid user_names second_key (granted_under first_key) (grant_bytes 1) → ⊥ }

    // What the process hears.
    ensures hears { HearsUnforged user_names 1 (listening bare) (granted_under first_key) 2 grant_handed }
    ensures hears_at_another_port { HearsUnforged user_names 1 (listening first_key) (granted_under first_key) 2
        grant_handed → ⊥ }
    ensures hears_unsaid { HearsUnforged user_names 1 (listening bare) [] 2 grant_handed → ⊥ }
    ensures hears_under_another_key { HearsUnforged user_names 1 (listening bare) (granted_under second_key) 2
        grant_handed → ⊥ }
    // Bytes that tell no vote need not have been said.
    ensures hears_nothing { HearsUnforged user_names 1 (listening bare) [] 3 [] }
    ensures translator { IsTranslatorOf user_names 1 silver_first (translator_under first_key) }
    ensures translator_of_another_key { IsTranslatorOf user_names 1 silver_first (translator_under second_key) → ⊥ }
    ensures translator_of_another_node { IsTranslatorOf user_names 2 silver_first (translator_under first_key) → ⊥ }
    ensures translator_of_another_book { IsTranslatorOf user_names 1 maple_first (translator_under first_key) → ⊥ }

    // A step that hears from a member is unforged, and every other one.
    ensures step { IsUnforgedStep user_names 1 (Open (listening bare)) (granted_under first_key) hears_grant.step }
    ensures step_unsaid { IsUnforgedStep user_names 1 (Open (listening bare)) [] hears_grant.step → ⊥ }
    ensures step_of_a_client { IsUnforgedStep user_names 1 (Open (listening bare)) [] hears_silver.step }
    ensures step_of_no_process { IsUnforgedStep user_names 1 (Closed silver_row) [] hears_grant.step }

    // What is in range.
    ensures raises { IsInRange (Does (Raises 1 0 (2 ^ 62))) }
    ensures gets { IsInRange (Gets 1 (0 ∷ []) (λ token. 2 ^ 62)) }
    ensures unlocks { IsInRange (Does (Unlocks 1 0)) }
    ensures loses { IsInRange Loses }
    ensures starts { (terms : Terms) (port : List ℕ) → length terms.config.book ≡ 10000
        → IsInRange (Starts terms port) }
    ensures items_past_the_last_floor { AreUnforgedItems user_names three (first_place three) []
        (at 1 (Does (Enrols 1 0 0)) ∷ at 1 (Does (Raises 1 0 (2 ^ 62 + 1))) ∷ []) → ⊥ }
{}

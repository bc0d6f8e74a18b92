ghost use Rattle.std.specs.Prelude.{◌≡◌, ℕ, List, [], ◌∷◌, ◌++◌, codes, replicate};
ghost use Rattle.hmac_core.specs.declared.hash.Hash.{Hash};
ghost use Rattle.otp_core.specs.declared.digits.Digits.{Digits};
ghost use Rattle.token_file.specs.Credential.{Credential};
ghost use Rattle.token_file.specs.Examples.{event_token, password, time_token, token_of};
ghost use Rattle.token_file.specs.Writing.{IsCredential};
ghost use Rattle.token_file.specs.declared.token.Kind.{Kind};
ghost use Rattle.token_file.specs.declared.token.Password.{Password};
ghost use Rattle.token_names.specs.Examples.{name_of_event, seed_of_event, seed_of_time, two_bytes};
ghost use Rattle.token_names.specs.Identity.{IsSameToken, identity_text};
ghost use Rattle.token_names.specs.Names.{AreDistinct, IsCollision, IsFaultOf, IsFirstRepeat, IsSalt, name_of as spec_name_of, names_of as spec_names_of, short_mac};
ghost use Rattle.token_names.specs.Seed.{IsSameDevice, seed_of as spec_seed_of, seed_text};
ghost use Rattle.token_names.specs.declared.fault.NamesFault.{NamesFault};

/// Injective: tokens with equal identities have equal types, users and secrets.
pub fn identities_tell()
    ensures { (a b : Credential) → IsCredential a → IsCredential b → identity_text a ≡ identity_text b →
        IsSameToken a b }
{}

/// Different names: tokens of other types, users or secrets have different names, unless their identities collide
/// under the first 16 bytes of HMAC-SHA-256.
pub fn names_tell()
    ensures { (salt : List ℕ) (a b : Credential) → IsCredential a → IsCredential b → (IsSameToken a b → ⊥) →
        spec_name_of salt a ≡ spec_name_of salt b → IsCollision salt (identity_text a) (identity_text b) }
{}

/// A token with another password has the same name.
pub fn passwords_are_left_out()
    ensures { (salt : List ℕ) (credential : Credential) (password : Password) →
        spec_name_of salt (record credential { password = password }) ≡ spec_name_of salt credential }
{}

/// Injective: tokens with equal texts of their seeds have equal kinds and secrets.
pub fn seed_texts_tell()
    ensures { (a b : Credential) → IsCredential a → IsCredential b → seed_text a ≡ seed_text b → IsSameDevice a b }
{}

/// Different seeds: tokens of other kinds or secrets have different seeds, unless the texts of the seeds collide under
/// the first 16 bytes of HMAC-SHA-256.
pub fn seeds_tell()
    ensures { (salt : List ℕ) (a b : Credential) → IsCredential a → IsCredential b → (IsSameDevice a b → ⊥) →
        spec_seed_of salt a ≡ spec_seed_of salt b → IsCollision salt (seed_text a) (seed_text b) }
{}

/// Same seed: tokens of the same kind and secret have the same seed.
pub fn devices_keep_their_seeds()
    ensures { (salt : List ℕ) (a b : Credential) → IsSameDevice a b → spec_seed_of salt a ≡ spec_seed_of salt b }
{}

/// Separate: no text is an identity and the text of a seed. A name that is a seed is a collision.
pub fn seeds_are_no_names()
    ensures texts { (a b : Credential) → identity_text a ≡ seed_text b → ⊥ }
    ensures names { (salt : List ℕ) (a b : Credential) → spec_name_of salt a ≡ spec_seed_of salt b →
        IsCollision salt (identity_text a) (seed_text b) }
{}

/// Worked cases. The identity of each kind of token, and tokens that differ in one part.
pub fn identities_are_worked()
    ensures event { identity_text (event_token (codes "u"))
        ≡ codes "HOTP/E/6" ++ 9 ∷ codes "u" ++ 9 ∷ codes "31" ++ 10 ∷ [] }
    ensures with_password { identity_text
        (token_of (codes "u") (password (codes "pw")) Kind.Time60 Digits.Seven Hash.Sha256)
        ≡ codes "HOTP/T60/7/SHA256" ++ 9 ∷ codes "u" ++ 9 ∷ codes "31" ++ 10 ∷ [] }
    ensures long_secret { identity_text (two_bytes (codes "ann") Kind.Time30 Digits.Eight Hash.Sha512)
        ≡ codes "HOTP/T30/8/SHA512" ++ 9 ∷ codes "ann" ++ 9 ∷ codes "00ff" ++ 10 ∷ [] }
    ensures same { IsSameToken (event_token (codes "u"))
        (token_of (codes "u") (password (codes "pw")) Kind.Event Digits.Six Hash.Sha1) }
    ensures other_user { IsSameToken (event_token (codes "u")) (event_token (codes "v")) → ⊥ }
    ensures other_kind { IsSameToken (time_token Kind.Time30) (time_token Kind.Time60) → ⊥ }
    ensures other_digits { IsSameToken (event_token (codes "u"))
        (token_of (codes "u") Password.NoneAllowed Kind.Event Digits.Seven Hash.Sha1) → ⊥ }
    ensures other_hash { IsSameToken (time_token Kind.Time30)
        (token_of (codes "u") Password.NoneAllowed Kind.Time30 Digits.Six Hash.Sha256) → ⊥ }
    ensures other_secret { IsSameToken (event_token (codes "u"))
        (two_bytes (codes "u") Kind.Event Digits.Six Hash.Sha1) → ⊥ }
{}

/// Worked cases. Salts, a name, and the names of a book.
pub fn names_are_worked()
    ensures shortest_salt { IsSalt (codes "twelve-bytes") }
    ensures short_salt { IsSalt (codes "only-eleven") → ⊥ }
    ensures longest_salt { IsSalt (replicate 64 97) }
    ensures long_salt { IsSalt (replicate 65 97) → ⊥ }
    ensures blank_in_a_salt { IsSalt (codes "with a blank") → ⊥ }
    ensures name { spec_name_of (codes "names-of-site-1") (event_token (codes "u")) ≡ name_of_event }
    ensures in_order { (salt : List ℕ) → spec_names_of salt (event_token (codes "u") ∷ event_token (codes "v") ∷ [])
        ≡ spec_name_of salt (event_token (codes "u")) ∷ spec_name_of salt (event_token (codes "v")) ∷ [] }
    ensures no_rows { (salt : List ℕ) → spec_names_of salt [] ≡ [] }
{}

/// Worked cases. The text of a seed of each kind, the seeds of two kinds, and tokens that differ in one part.
pub fn seeds_are_worked()
    ensures event { seed_text (event_token (codes "u")) ≡ codes "seed" ++ 9 ∷ codes "HOTP/E" ++ 9 ∷ codes "31" }
    ensures long_secret { seed_text (two_bytes (codes "ann") Kind.Time30 Digits.Eight Hash.Sha512)
        ≡ codes "seed" ++ 9 ∷ codes "HOTP/T30" ++ 9 ∷ codes "00ff" }
    ensures with_password { seed_text
        (token_of (codes "u") (password (codes "pw")) Kind.Time60 Digits.Seven Hash.Sha256)
        ≡ codes "seed" ++ 9 ∷ codes "HOTP/T60" ++ 9 ∷ codes "31" }
    ensures seed { spec_seed_of (codes "names-of-site-1") (event_token (codes "u")) ≡ seed_of_event }
    ensures seed_of_another_kind { spec_seed_of (codes "names-of-site-1") (time_token Kind.Time30) ≡ seed_of_time }
    ensures seed_of_another_user { (salt : List ℕ) →
        spec_seed_of salt (token_of (codes "v") (password (codes "pw")) Kind.Event Digits.Seven Hash.Sha1)
        ≡ spec_seed_of salt (event_token (codes "u")) }
    ensures same { IsSameDevice (time_token Kind.Time30)
        (token_of (codes "v") (password (codes "pw")) Kind.Time30 Digits.Seven Hash.Sha256) }
    ensures other_kind { IsSameDevice (time_token Kind.Time30) (time_token Kind.Time60) → ⊥ }
    ensures other_secret { IsSameDevice (event_token (codes "u"))
        (two_bytes (codes "u") Kind.Event Digits.Six Hash.Sha1) → ⊥ }
{}

/// Counterexamples: each promise of names, faults and collisions fails for a minimal one.
pub fn names_can_be_broken()
    ensures distinct { AreDistinct ((1 ∷ []) ∷ (2 ∷ []) ∷ []) }
    ensures same_as_the_first { AreDistinct ((1 ∷ []) ∷ (2 ∷ []) ∷ (1 ∷ []) ∷ []) → ⊥ }
    ensures same_as_the_one_before { AreDistinct ((1 ∷ []) ∷ (2 ∷ []) ∷ (2 ∷ []) ∷ []) → ⊥ }

    ensures repeat { IsFirstRepeat ((1 ∷ []) ∷ (2 ∷ []) ∷ (1 ∷ []) ∷ (2 ∷ []) ∷ []) 3 }
    ensures second_repeat { IsFirstRepeat ((1 ∷ []) ∷ (2 ∷ []) ∷ (1 ∷ []) ∷ (2 ∷ []) ∷ []) 4 → ⊥ }
    ensures no_repeat { IsFirstRepeat ((1 ∷ []) ∷ (2 ∷ []) ∷ (1 ∷ []) ∷ []) 2 → ⊥ }
    ensures row_0 { IsFirstRepeat ((1 ∷ []) ∷ (1 ∷ []) ∷ []) 0 → ⊥ }
    ensures past_the_rows { IsFirstRepeat ((1 ∷ []) ∷ (2 ∷ []) ∷ []) 3 → ⊥ }

    ensures memory { IsFaultOf [] NamesFault.Memory }
    ensures same_name { IsFaultOf ((1 ∷ []) ∷ (1 ∷ []) ∷ []) (NamesFault.SameName 2) }
    ensures same_name_of_the_first { IsFaultOf ((1 ∷ []) ∷ (1 ∷ []) ∷ []) (NamesFault.SameName 1) → ⊥ }

    ensures collision_of_a_text_with_itself { (salt text : List ℕ) → IsCollision salt text text → ⊥ }
    ensures collision_of_other_names { (salt a b : List ℕ) → (short_mac salt a ≡ short_mac salt b → ⊥) →
        IsCollision salt a b → ⊥ }
{}

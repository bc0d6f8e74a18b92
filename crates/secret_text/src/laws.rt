ghost use Rattle.std.specs.Prelude.{◌≡◌, ℕ, List, [], ◌∷◌, ◌++◌, codes, filter, map, not, replicate, Some, None, is_some};
ghost use Rattle.std.specs.List.{range_with_len};
ghost use Rattle.hex.specs.Hex.{IsBytes};
ghost use Rattle.hex.specs.declared.error.FromHexError.{FromHexError};
ghost use Rattle.otp_core.specs.Examples.{secret_of_20};
ghost use Rattle.otp_core.specs.Range.{IsSecret};
ghost use Rattle.secret_text.specs.Base32.{Spells, base32_text, count_refusal, is_bad, refusal_of, symbol_value, text_before_padding, values_of};
ghost use Rattle.secret_text.specs.Bits.{bits_of};
ghost use Rattle.secret_text.specs.Examples.{capitals, every_symbol, low_digits, small_letters};
ghost use Rattle.secret_text.specs.Hexadecimal.{hex_fault, hex_refusal_of, is_no_digit};
ghost use Rattle.secret_text.specs.declared.fault.SecretFault.{SecretFault};

/// Round trip: the text of a secret is not refused, and spells exactly the secret.
pub fn reads_what_it_wrote()
    ensures taken { (secret : List ℕ) → IsSecret secret → refusal_of (base32_text secret) ≡ None }
    ensures spelled { (secret : List ℕ) → IsBytes secret → Spells (base32_text secret) secret }
    ensures alone { (secret other : List ℕ) → IsBytes secret
        → Spells (base32_text secret) other → other ≡ secret }
{}

/// Worked cases. The texts of RFC 4648, sections 6 and 10, both ways, and each fault of a text with its place.
pub fn texts_are_worked()
    ensures bits { bits_of 8 0xa5 ≡ 1 ∷ 0 ∷ 1 ∷ 0 ∷ 0 ∷ 1 ∷ 0 ∷ 1 ∷ [] }
    ensures written { map base32_text ([] ∷ codes "f" ∷ codes "fo" ∷ codes "foo" ∷ codes "foob" ∷ codes "fooba"
        ∷ codes "foobar" ∷ secret_of_20 ∷ every_symbol ∷ [])
        ≡ [] ∷ codes "MY======" ∷ codes "MZXQ====" ∷ codes "MZXW6===" ∷ codes "MZXW6YQ=" ∷ codes "MZXW6YTB"
        ∷ codes "MZXW6YTBOI======" ∷ codes "GEZDGNBVGY3TQOJQGEZDGNBVGY3TQOJQ" ∷ (capitals ++ low_digits) ∷ [] }
    ensures values { map values_of ((capitals ++ low_digits) ∷ (small_letters ++ low_digits) ∷ codes "mZ x == " ∷ [])
        ≡ range_with_len 0 32 ∷ range_with_len 0 32 ∷ (12 ∷ 25 ∷ 23 ∷ []) ∷ [] }
    ensures alphabet { filter (λ byte. is_some (symbol_value byte)) (range_with_len 0 256)
        ≡ low_digits ++ capitals ++ small_letters }
    ensures allowed { filter (λ byte. not (is_bad byte)) (range_with_len 0 256)
        ≡ 32 ∷ low_digits ++ capitals ++ small_letters }
    ensures fronts { map text_before_padding (codes "MY======" ∷ codes "MY= = == == " ∷ codes "MY======="
        ∷ codes "M =Y=" ∷ codes " MY " ∷ codes " ====== " ∷ [])
        ≡ codes "MY" ∷ codes "MY" ∷ codes "MY=" ∷ codes "M =Y" ∷ codes " MY" ∷ [] ∷ [] }
    ensures taken { map refusal_of (codes "MY======" ∷ codes "MZXQ====" ∷ codes "MZXW6===" ∷ codes "MZXW6YQ="
        ∷ codes "MZXW6YTB" ∷ codes "MZXW6YTBOI======" ∷ codes "mzxw6ytboi" ∷ codes " mZ xW = = " ∷ codes "MZ"
        ∷ replicate 205 65 ∷ []) ≡ replicate 10 None }
    ensures bad_characters { map refusal_of (codes "MZ1" ∷ codes "M Z  1 8" ∷ codes "M =Y" ∷ codes "MY======="
        ∷ codes "=======" ∷ codes "0" ∷ codes "A1"
        ∷ (77 ∷ 89 ∷ 9 ∷ []) ∷ codes "MY-" ∷ (replicate 208 65 ++ 49 ∷ []) ∷ [])
        ≡ Some (SecretFault.BadCharacter 2) ∷ Some (SecretFault.BadCharacter 5) ∷ Some (SecretFault.BadCharacter 2)
        ∷ Some (SecretFault.BadCharacter 2) ∷ Some (SecretFault.BadCharacter 0) ∷ Some (SecretFault.BadCharacter 0)
        ∷ Some (SecretFault.BadCharacter 1) ∷ Some (SecretFault.BadCharacter 2) ∷ Some (SecretFault.BadCharacter 2)
        ∷ Some (SecretFault.BadCharacter 208) ∷ [] }
    ensures other_faults { map refusal_of ([] ∷ codes "  " ∷ codes " ====== " ∷ codes "A" ∷ codes "AAA ="
        ∷ codes "AAAAAA" ∷ replicate 207 65 ∷ [])
        ≡ Some SecretFault.Empty ∷ Some SecretFault.Empty ∷ Some SecretFault.Empty ∷ Some SecretFault.BadLength
        ∷ Some SecretFault.BadLength ∷ Some SecretFault.BadLength ∷ Some SecretFault.TooLong ∷ [] }
    ensures counts { map count_refusal (range_with_len 0 10)
        ≡ Some SecretFault.Empty ∷ Some SecretFault.BadLength ∷ None ∷ Some SecretFault.BadLength ∷ None ∷ None
        ∷ Some SecretFault.BadLength ∷ None ∷ None ∷ Some SecretFault.BadLength ∷ [] }
    ensures high_counts { map count_refusal (range_with_len 204 5)
        ≡ None ∷ None ∷ Some SecretFault.BadLength ∷ Some SecretFault.TooLong ∷ Some SecretFault.TooLong ∷ [] }
    ensures spells { Spells (codes "MY======") (codes "f") × Spells (codes "m z") (codes "f")
        × Spells (codes "MZXW6YTBOI") (codes "foobar") }
    ensures spells_no_other { (Spells (codes "MY") (codes "g") → ⊥) × (Spells (codes "MY") [] → ⊥)
        × (Spells (codes "A") [] → ⊥) × (Spells (codes "MY") (358 ∷ []) → ⊥) }
    ensures hex_taken { map hex_refusal_of (codes "00" ∷ codes "0123456789abcdefABCDEF" ∷ replicate 256 0x30 ∷ [])
        ≡ replicate 3 None }
    ensures hex_digits { filter (λ byte. not (is_no_digit byte)) (range_with_len 0 256)
        ≡ codes "0123456789ABCDEFabcdef" }
    ensures hex_faults { map hex_refusal_of ([] ∷ codes "666" ∷ codes "x" ∷ replicate 257 0x30 ∷ replicate 258 0x30
        ∷ replicate 258 120 ∷ codes "666g6x" ∷ codes "66 6f " ∷ codes "x6" ∷ [])
        ≡ Some SecretFault.Empty ∷ Some SecretFault.BadLength ∷ Some SecretFault.BadLength ∷ Some SecretFault.BadLength
        ∷ Some SecretFault.TooLong ∷ Some SecretFault.TooLong ∷ Some (SecretFault.BadCharacter 3)
        ∷ Some (SecretFault.BadCharacter 2) ∷ Some (SecretFault.BadCharacter 0) ∷ [] }
    ensures hex_errors { map hex_fault (FromHexError.InvalidHexCharacter 120 3 ∷ FromHexError.OddLength ∷ [])
        ≡ SecretFault.BadCharacter 3 ∷ SecretFault.BadLength ∷ [] }
{}

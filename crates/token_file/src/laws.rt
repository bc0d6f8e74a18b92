ghost use Rattle.std.specs.Prelude.{◌≡◌, ℕ, ◌*◌, ◌≤◌, ◌++◌, ◌∷◌, [], List, length, map, replicate, codes, true, false, Some, None, Ok, Err, is_ok};
ghost use Rattle.hex.specs.Hex.{IsBytes};
ghost use Rattle.hmac_core.specs.declared.hash.Hash.{Hash};
ghost use Rattle.otp_core.specs.Range.{IsNext};
ghost use Rattle.otp_core.specs.declared.digits.Digits.{Digits};
ghost use Rattle.token_file.specs.Credential.{Credential, is_hash_of, is_password, period_of, place_of};
ghost use Rattle.token_file.specs.Examples.{appendix_token, at_59, columns, comment_of, event_token, faults, many_tokens, named, password, row, row_of_line, time_token, token_of, two_rows, word_of, written_rows};
ghost use Rattle.token_file.specs.Fields.{fields_of, lines_of};
ghost use Rattle.token_file.specs.Row.{Faulty, Holds, Ignored, first_free, password_of, row_of, secret_of};
ghost use Rattle.token_file.specs.Source.{OfText, Pulls, Stays, is_failure};
ghost use Rattle.token_file.specs.TypeWord.{type_of};
ghost use Rattle.token_file.specs.UsersFile.{Import, Instant, IsCutOff, after_last, after_line, after_token, book_of, is_of_text, is_read, is_read_result, outcome_of};
ghost use Rattle.token_file.specs.Writing.{IsCredential, row_line, row_text, written_counter};
ghost use Rattle.token_file.specs.WrittenFile.{AreRows, WrittenRow, credentials_of, file_text, read_floor};
ghost use Rattle.token_file.specs.declared.fault.LineFault.{LineFault};
ghost use Rattle.token_file.specs.declared.source.Pulled.{Pulled};
ghost use Rattle.token_file.specs.declared.token.Password.{Password};

use crate::token::{Kind, Token};
use otp_core::MAX_TOKENS;

/// Each element of a slice of bytes is a byte.
fn are_bytes(bytes: &[u8])
    ensures { IsBytes bytes.now }
{}

/// Every token is one that `rows_read_back` covers.
pub fn tokens_are_credentials(token: &Token)
    ensures { IsCredential token.now }
{
    token.parts_fit();
    are_bytes(token.secret().as_slice());
}

/// Round trip of rows: a written row is one line, and reads as the same token with the same floor. The floor is the
/// token's first free factor.
pub fn rows_read_back()
    ensures row { (credential : Credential) (next : ℕ) → IsCredential credential → IsNext next →
        row_of (fields_of (row_line credential next))
        ≡ Holds credential (written_counter credential.kind next) None }
    ensures floor { (credential : Credential) (next skew moment : ℕ) → credential.kind ≡ Kind.Event →
        first_free skew moment credential (written_counter credential.kind next) None ≡ next }
    ensures lines { (credential : Credential) (next : ℕ) (rest : List ℕ) → IsCredential credential → IsNext next →
        lines_of (row_text credential next ++ rest) ≡ row_line credential next ∷ lines_of rest }
    ensures short { (credential : Credential) (next : ℕ) → IsCredential credential → IsNext next →
        length (row_text credential next) ≤ 425 }
    ensures import { (at : Instant) (so_far : Import) (credential : Credential) (next : ℕ) →
        IsCredential credential → IsNext next → after_line at so_far (row_line credential next)
        ≡ after_token at so_far credential (written_counter credential.kind next) None }
{}

/// Round trip of files: a file of written rows reads as the same tokens in the same order. A row has at most 425 bytes.
pub fn files_read_back()
    ensures read { (limit : ℕ) (at : Instant) (rows : List WrittenRow) → AreRows [] rows →
        length rows ≤ MAX_TOKENS → length (file_text rows) ≤ limit → book_of limit at (file_text rows)
        ≡ Ok (record { book = credentials_of rows; floors = map (read_floor at) rows }) }
    ensures short { (rows : List WrittenRow) → AreRows [] rows → length (file_text rows) ≤ 425 * length rows }
{}

/// Worked cases. The types of a users file, the fields of a line, and the row of each line.
pub fn rows_are_worked()
    ensures event_types { map type_of (codes "HOTP" ∷ codes "HOTP/E" ∷ codes "HOTP/E/6" ∷ codes "HOTP/E/7"
        ∷ codes "HOTP/E/8" ∷ [])
        ≡ named Kind.Event Digits.Six Hash.Sha1 ∷ named Kind.Event Digits.Six Hash.Sha1
        ∷ named Kind.Event Digits.Six Hash.Sha1 ∷ named Kind.Event Digits.Seven Hash.Sha1
        ∷ named Kind.Event Digits.Eight Hash.Sha1 ∷ [] }
    ensures types_of_30 { map type_of (codes "HOTP/T30" ∷ codes "HOTP/T30/6" ∷ codes "HOTP/T30/7"
        ∷ codes "HOTP/T30/8" ∷ codes "HOTP/T30/6/SHA256" ∷ codes "HOTP/T30/7/SHA256" ∷ codes "HOTP/T30/8/SHA256"
        ∷ codes "HOTP/T30/6/SHA512" ∷ codes "HOTP/T30/7/SHA512" ∷ codes "HOTP/T30/8/SHA512" ∷ [])
        ≡ named Kind.Time30 Digits.Six Hash.Sha1 ∷ named Kind.Time30 Digits.Six Hash.Sha1
        ∷ named Kind.Time30 Digits.Seven Hash.Sha1 ∷ named Kind.Time30 Digits.Eight Hash.Sha1
        ∷ named Kind.Time30 Digits.Six Hash.Sha256 ∷ named Kind.Time30 Digits.Seven Hash.Sha256
        ∷ named Kind.Time30 Digits.Eight Hash.Sha256 ∷ named Kind.Time30 Digits.Six Hash.Sha512
        ∷ named Kind.Time30 Digits.Seven Hash.Sha512 ∷ named Kind.Time30 Digits.Eight Hash.Sha512 ∷ [] }
    ensures types_of_60 { map type_of (codes "HOTP/T60" ∷ codes "HOTP/T60/6" ∷ codes "HOTP/T60/7/SHA256"
        ∷ codes "HOTP/T60/8/SHA512" ∷ [])
        ≡ named Kind.Time60 Digits.Six Hash.Sha1 ∷ named Kind.Time60 Digits.Six Hash.Sha1
        ∷ named Kind.Time60 Digits.Seven Hash.Sha256 ∷ named Kind.Time60 Digits.Eight Hash.Sha512 ∷ [] }
    ensures no_types { map type_of (codes "HOTP/" ∷ codes "HOTP/E/" ∷ codes "HOTP/E/5" ∷ codes "HOTP/E/9"
        ∷ codes "HOTP/E/66" ∷ codes "HOTP/E/6/SHA1" ∷ codes "HOTP/E/6/SHA256" ∷ codes "HOTP/T3" ∷ codes "HOTP/T300"
        ∷ codes "HOTP/T90" ∷ codes "HOTP/T30/" ∷ codes "HOTP/T30/5" ∷ codes "HOTP/T30/9" ∷ codes "HOTP/T30/6/SHA1"
        ∷ codes "HOTP/T30/SHA256" ∷ codes "HOTP/T30/6/SHA384" ∷ codes "HOTP/T60/6/sha256" ∷ codes "hotp"
        ∷ codes "HOT" ∷ codes "XHOTP" ∷ codes "#HOTP" ∷ [] ∷ []) ≡ replicate 22 None }
    ensures fields { fields_of (32 ∷ 97 ∷ 98 ∷ 9 ∷ 13 ∷ 10 ∷ 32 ∷ 32 ∷ 99 ∷ 11 ∷ 12 ∷ 9 ∷ [])
        ≡ (97 ∷ 98 ∷ []) ∷ (99 ∷ 11 ∷ 12 ∷ []) ∷ [] }
    ensures lines { lines_of (97 ∷ 10 ∷ 10 ∷ 98 ∷ 13 ∷ 10 ∷ []) ≡ (97 ∷ []) ∷ [] ∷ (98 ∷ 13 ∷ []) ∷ [] ∷ [] }
    ensures ignored { map row_of_line ([] ∷ codes "  " ∷ codes "# HOTP u - 31" ∷ codes "#HOTP u - 31"
        ∷ codes "hotp u - 31" ∷ codes "HOTP/E/9 u - 31" ∷ codes "u HOTP - 31" ∷ []) ≡ replicate 7 Ignored }
    ensures missing { map row_of_line (codes "HOTP" ∷ codes "HOTP u" ∷ codes "HOTP u -" ∷ codes "HOTP/T30 u -" ∷ [])
        ≡ replicate 4 (Faulty LineFault.MissingField) }
    ensures counters { map row_of_line (codes " HOTP  u - 31" ∷ codes "HOTP u - 31 7" ∷ codes "HOTP u - 31 7 755224"
        ∷ codes "HOTP u - 31 7 755224 2009 x" ∷ codes "HOTP u - 31 0000000000000000009"
        ∷ codes "HOTP u - 31 4611686018427387904" ∷ [])
        ≡ Holds (event_token (codes "u")) 0 None ∷ Holds (event_token (codes "u")) 7 None
        ∷ Holds (event_token (codes "u")) 7 (Some (codes "755224"))
        ∷ Holds (event_token (codes "u")) 7 (Some (codes "755224"))
        ∷ Holds (event_token (codes "u")) 9 None
        ∷ Holds (event_token (codes "u")) 4611686018427387904 None ∷ [] }
    ensures no_counters { map row_of_line (codes "HOTP u - 31 x" ∷ codes "HOTP u - 31 +5" ∷ codes "HOTP u - 31 -1"
        ∷ codes "HOTP u - 31 5x" ∷ codes "HOTP u - 31 4611686018427387905" ∷ codes "HOTP u - 31 00000000000000000000"
        ∷ codes "HOTP u - 31 x 755224" ∷ []) ≡ replicate 7 (Faulty LineFault.BadCounter) }
    ensures time_tokens { map row_of_line (codes "HOTP/T30 u - 31 x y" ∷ codes "HOTP/T60 u - 31 7 755224" ∷ [])
        ≡ Holds (time_token Kind.Time30) 0 None ∷ Holds (time_token Kind.Time60) 0 None ∷ [] }
    ensures passwords { map password_of (codes "-" ∷ codes "+" ∷ codes "--" ∷ codes "-+" ∷ codes "pw" ∷ [])
        ≡ Password.NoneAllowed ∷ Password.NotChecked ∷ password (codes "--") ∷ password (codes "-+")
        ∷ password (codes "pw") ∷ [] }
    ensures whole { row_of_line (codes "HOTP/T60/8/SHA256 u pw 31")
        ≡ Holds (token_of (codes "u") (password (codes "pw")) Kind.Time60 Digits.Eight Hash.Sha256) 0 None }
    ensures long_words { map row_of (columns (word_of 64) (codes "-") (codes "31")
        ∷ columns (word_of 65) (codes "-") (codes "31") ∷ columns (codes "u") (word_of 64) (codes "31")
        ∷ columns (codes "u") (word_of 65) (codes "31") ∷ [])
        ≡ Holds (event_token (word_of 64)) 0 None ∷ Faulty LineFault.NameTooLong
        ∷ Holds (token_of (codes "u") (password (word_of 64)) Kind.Event Digits.Six Hash.Sha1) 0 None
        ∷ Faulty LineFault.NameTooLong ∷ [] }
    ensures secrets { map secret_of (codes "aB09" ∷ replicate 256 0x30 ∷ replicate 258 0x30 ∷ codes "3" ∷ codes "3g"
        ∷ []) ≡ Some (0xab ∷ 9 ∷ []) ∷ Some (replicate 128 0) ∷ None ∷ None ∷ None ∷ [] }
    ensures first_faults { map row_of ((codes "HOTP" ∷ word_of 65 ∷ codes "-" ∷ [])
        ∷ columns (word_of 65) (codes "-") (codes "zz") ∷ columns (codes "u") (word_of 65) (codes "zz")
        ∷ (columns (codes "u") (codes "-") (codes "zz") ++ codes "x" ∷ []) ∷ [])
        ≡ Faulty LineFault.MissingField ∷ Faulty LineFault.NameTooLong ∷ Faulty LineFault.NameTooLong
        ∷ Faulty LineFault.BadSecret ∷ [] }
    ensures marks { map is_password (Password.NoneAllowed ∷ Password.NotChecked ∷ password (codes "-")
        ∷ password (codes "+") ∷ password (codes "--") ∷ password [] ∷ password (word_of 65) ∷ [])
        ≡ true ∷ true ∷ false ∷ false ∷ true ∷ false ∷ false ∷ [] }
    ensures hashes { map (is_hash_of Kind.Event) (Hash.Sha1 ∷ Hash.Sha256 ∷ Hash.Sha512 ∷ [])
        ++ map (is_hash_of Kind.Time30) (Hash.Sha1 ∷ Hash.Sha256 ∷ Hash.Sha512 ∷ [])
        ++ map (is_hash_of Kind.Time60) (Hash.Sha1 ∷ Hash.Sha256 ∷ Hash.Sha512 ∷ [])
        ≡ true ∷ false ∷ false ∷ true ∷ true ∷ true ∷ true ∷ true ∷ true ∷ [] }
    ensures periods { map period_of (Kind.Event ∷ Kind.Time30 ∷ Kind.Time60 ∷ []) ≡ None ∷ Some 30 ∷ Some 60 ∷ [] }
{}

/// Worked cases. The floors of an import, the outcome of a users file, failed pulls, and written rows.
pub fn files_are_worked()
    ensures event_floors { first_free 1 59 (appendix_token Digits.Six) 0 None
        ∷ first_free 1 59 (appendix_token Digits.Six) 0 (Some (codes "755224"))
        ∷ first_free 1 59 (appendix_token Digits.Six) 0 (Some (codes "287082"))
        ∷ first_free 1 59 (appendix_token Digits.Six) 3 (Some (codes "969429"))
        ∷ first_free 1 59 (appendix_token Digits.Six) 0 (Some (codes "84755224"))
        ∷ first_free 1 59 (appendix_token Digits.Eight) 0 (Some (codes "84755224"))
        ∷ first_free 1 59 (appendix_token Digits.Six) 4611686018427387903 (Some (codes "127442"))
        ∷ first_free 1 59 (appendix_token Digits.Six) 4611686018427387904 (Some (codes "109307")) ∷ []
        ≡ 0 ∷ 1 ∷ 0 ∷ 4 ∷ 0 ∷ 1 ∷ 4611686018427387904 ∷ 4611686018427387904 ∷ [] }
    ensures time_floors { first_free 1 59 (time_token Kind.Time30) 0 None
        ∷ first_free 1 60 (time_token Kind.Time30) 0 None
        ∷ first_free 0 60 (time_token Kind.Time30) 7 (Some (codes "755224"))
        ∷ first_free 10 0 (time_token Kind.Time30) 0 None
        ∷ first_free 1 59 (time_token Kind.Time60) 0 None ∷ first_free 1 60 (time_token Kind.Time60) 0 None ∷ []
        ≡ 3 ∷ 4 ∷ 3 ∷ 11 ∷ 2 ∷ 3 ∷ [] }
    ensures empty { book_of 0 at_59 [] ≡ Ok (record { book = []; floors = [] }) }
    ensures comments { book_of 100 at_59 (codes "# u" ++ 10 ∷ 10 ∷ 32 ∷ []) ≡ Ok (record { book = []; floors = [] }) }
    ensures no_last_end { book_of 100 at_59 (codes "HOTP a - 31 7" ++ 10 ∷ codes "HOTP/T30 u - 31")
        ≡ Ok (record { book = event_token (codes "a") ∷ time_token Kind.Time30 ∷ []; floors = 7 ∷ 3 ∷ [] }) }
    ensures whole { book_of 24 at_59 two_rows ≡ Ok (record {
      book = event_token (codes "a") ∷ event_token (codes "b") ∷ [];
      floors = 0 ∷ 0 ∷ [];
    }) }
    ensures too_long { map (λ limit. book_of limit at_59 two_rows) (23 ∷ 12 ∷ 11 ∷ 0 ∷ [])
        ≡ Err (2, LineFault.FileTooLong) ∷ Err (2, LineFault.FileTooLong) ∷ Err (1, LineFault.FileTooLong)
        ∷ Err (1, LineFault.FileTooLong) ∷ [] }
    ensures first_faulty_line { book_of 20 at_59 (codes "#" ++ 10 ∷ codes "HOTP u -" ++ 10 ∷ codes "HOTP u - zz 31")
        ≡ Err (2, LineFault.MissingField) }
    ensures cut { outcome_of (Some LineFault.Read) 24 at_59 two_rows ≡ Err (3, LineFault.Read) }
    ensures same_user { book_of 100 at_59 (codes "HOTP a - 31" ++ 10 ∷ codes "HOTP/T60 a + 32")
        ≡ Err (2, LineFault.DuplicateUser) }
    ensures same_user_with_a_fault { book_of 100 at_59 (codes "HOTP a - 31" ++ 10 ∷ codes "HOTP a - zz")
        ≡ Err (2, LineFault.BadSecret) }
    ensures longest_line { after_line at_59 (many_tokens 0) (comment_of 4096) ≡ Ok (many_tokens 0) }
    ensures long_line { after_line at_59 (many_tokens 0) (comment_of 4097) ≡ Err LineFault.LineTooLong }
    ensures cut_lines { after_last (Some LineFault.Read) at_59 (many_tokens 0) (comment_of 4096)
        ∷ after_last (Some LineFault.Read) at_59 (many_tokens 0) (comment_of 4097) ∷ []
        ≡ Err LineFault.Read ∷ Err LineFault.LineTooLong ∷ [] }
    ensures room { is_ok (after_token at_59 (many_tokens 9999) (event_token (codes "v")) 0 None) ≡ true }
    ensures no_room { after_token at_59 (many_tokens 10000) (event_token (codes "v")) 0 None ≡ Err LineFault.TooMany }
    ensures same_user_and_no_room { after_token at_59 (many_tokens 10000) (event_token (codes "u")) 0 None
        ≡ Err LineFault.DuplicateUser }
    ensures places { map (λ name. place_of name (event_token (codes "a") ∷ event_token (codes "b")
        ∷ event_token (codes "b") ∷ [])) (codes "a" ∷ codes "b" ∷ codes "c" ∷ codes "aa" ∷ [])
        ≡ Some 0 ∷ Some 1 ∷ None ∷ None ∷ [] }
    ensures faults_of_text { map is_of_text faults
        ≡ true ∷ true ∷ true ∷ true ∷ true ∷ true ∷ true ∷ true ∷ false ∷ false ∷ [] }
    ensures faults_of_pulls { map is_read faults
        ≡ false ∷ false ∷ false ∷ false ∷ false ∷ false ∷ false ∷ false ∷ true ∷ false ∷ [] }
    ensures failed_pulls { map is_failure (Pulled.Failed ∷ Pulled.Bytes 0 ∷ []) ≡ true ∷ false ∷ [] }
    ensures results_of_pulls { map (is_read_result {A = ℕ}) (Ok 0 ∷ Err (record { line = 1; kind = LineFault.Memory })
        ∷ Err (record { line = 1; kind = LineFault.Read }) ∷ []) ≡ false ∷ false ∷ true ∷ [] }
    ensures written_event { row_text (event_token (codes "u")) 7
        ≡ codes "HOTP/E/6" ++ 9 ∷ codes "u" ++ 9 ∷ codes "-" ++ 9 ∷ codes "31" ++ 9 ∷ codes "7" ++ 10 ∷ [] }
    ensures written_time { row_text
        (token_of (codes "u") (password (codes "pw")) Kind.Time60 Digits.Seven Hash.Sha256) 7
        ≡ codes "HOTP/T60/7/SHA256" ++ 9 ∷ codes "u" ++ 9 ∷ codes "pw" ++ 9 ∷ codes "31" ++ 10 ∷ [] }
    ensures written_others { row_line (token_of (codes "u") Password.NotChecked Kind.Time30 Digits.Eight Hash.Sha512) 7
        ≡ codes "HOTP/T30/8/SHA512" ++ 9 ∷ codes "u" ++ 9 ∷ codes "+" ++ 9 ∷ codes "31" }
    ensures rows { AreRows [] written_rows }
    ensures same_user_twice { AreRows [] (row (event_token (codes "a")) 0 ∷ row (event_token (codes "a")) 1 ∷ []) → ⊥ }
    ensures nexts_of_rows { AreRows [] (row (event_token (codes "a")) 4611686018427387905 ∷ []) → ⊥ }
    ensures text_of_rows { file_text written_rows
        ≡ codes "HOTP/E/6" ++ 9 ∷ codes "a" ++ 9 ∷ codes "-" ++ 9 ∷ codes "31" ++ 9 ∷ codes "4611686018427387904"
        ++ 10 ∷ codes "HOTP/T60/6" ++ 9 ∷ codes "u" ++ 9 ∷ codes "-" ++ 9 ∷ codes "31" ++ 10 ∷ [] }
    ensures tokens_of_rows { credentials_of written_rows ≡ event_token (codes "a") ∷ time_token Kind.Time60 ∷ [] }
    ensures floors_of_rows { map (read_floor at_59) written_rows ≡ 4611686018427387904 ∷ 2 ∷ [] }
    ensures cut_off { IsCutOff LineFault.Read 24 at_59 two_rows 2 }
    ensures not_cut_off { IsCutOff LineFault.Read 24 at_59 [] 2 → ⊥ }
    ensures written_counters { map (λ kind. written_counter kind 7) (Kind.Event ∷ Kind.Time30 ∷ Kind.Time60 ∷ [])
        ≡ 7 ∷ 0 ∷ 0 ∷ [] }
{}

/// Counterexamples: each promise of pulls, kept values and texts fails for a minimal one.
pub fn pulls_can_be_broken()
    ensures pulls { Pulls (Some (5 ∷ 6 ∷ [])) (Some (6 ∷ [])) (Pulled.Bytes 1) (5 ∷ 9 ∷ []) }
    ensures pulls_at_the_end { Pulls (Some []) (Some []) (Pulled.Bytes 0) (9 ∷ []) }
    ensures pulls_more_than_the_buffer { Pulls (Some (9 ∷ [])) (Some []) (Pulled.Bytes 2) (9 ∷ []) → ⊥ }
    ensures pulls_other_bytes { Pulls (Some (5 ∷ [])) (Some []) (Pulled.Bytes 1) (6 ∷ []) → ⊥ }
    ensures pulls_none_before_the_end { Pulls (Some (5 ∷ [])) (Some (5 ∷ [])) (Pulled.Bytes 0) (9 ∷ []) → ⊥ }
    ensures pull_fails { Pulls (Some (5 ∷ 6 ∷ [])) (Some (6 ∷ [])) Pulled.Failed (9 ∷ []) }
    ensures pull_fails_and_adds { Pulls (Some []) (Some (5 ∷ [])) Pulled.Failed (9 ∷ []) → ⊥ }

    ensures stays { Stays {A = ℕ} (Some 5) (Some 5) × Stays {A = ℕ} None (Some 5) }
    ensures stays_untold { Stays {A = ℕ} (Some 5) None → ⊥ }
    ensures stays_another { Stays {A = ℕ} (Some 5) (Some 6) → ⊥ }

    ensures text { OfText (Some (5 ∷ [])) (λ text. text ≡ 5 ∷ []) × OfText None (λ text. text ≡ 5 ∷ []) }
    ensures another_text { OfText (Some []) (λ text. text ≡ 5 ∷ []) → ⊥ }
    ensures no_text { OfText None (λ text. ⊥) → ⊥ }
{}

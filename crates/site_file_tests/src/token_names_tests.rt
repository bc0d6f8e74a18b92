//! Names and seeds that Python's hmac computed, the names of a book, and what is printed.

use arrayvec::ArrayVec;
use hmac_core::Hash;
use otp_core::{Digits, Secret, Settings};
use std::alloc::Global;
use std::test::Fail;
use token_file::{Book, FromRead, Kind, Password, Token, TokenId, read_book};
use token_names::{Name, NamesFault, Salt, name_of, names_of, seed_of};

/// The salt of all names here.
const SALT: &[u8] = b"names-of-site-1";

/// The rows of three tokens, with passwords, a counter and remarks.
const ROWS: &[u8] = b"# site 1\nHOTP silver pw 3132333435363738393031323334353637383930 7\n\
    HOTP/T30/8/SHA256 ann - 00FF\nHOTP/E/6 u + 31\n";

/// The names of the tokens of [`ROWS`].
const NAMES: [&str; 3] = [
    "5cb0460e92720059b321966bf3ace45e",
    "e2329dda198989c3be495e9bada26a6c",
    "a94a7035cb37132f9354055c54723721",
];

/// The seeds of the tokens of [`ROWS`], in hexadecimal.
const SEEDS: [&str; 3] = [
    "4b1d67ac07a043cad8bcc7ec0a00202b",
    "ed76c9713d62b9bfbbb5e80400be4737",
    "11acba361ed553d6e50a21b85927a086",
];

/// Returns the salt of all names here.
fn salt() -> Result<Salt, Fail> {
    Salt::new(SALT).ok_or_else(|| Fail::new("no salt"))
}

/// Returns a time token of the user `ann` with the secret 00 ff.
fn token_of_ann(password: Password) -> Option<Token> {
    let name = ArrayVec::try_from(b"ann".as_slice()).ok()?;
    let secret = Secret::new(&[0, 0xff])?;
    Token::new(
        name,
        password,
        secret,
        Kind::Time60,
        Digits::Seven,
        Hash::Sha512,
    )
}

/// Reads the book of [`ROWS`].
fn book_of_rows(alloc: Global) -> Result<Book, Fail> {
    let settings = Settings::new(10, 1, 100).unwrap();
    let (book, _) = read_book(alloc, &mut FromRead::new(ROWS), settings, 59)?;
    Ok(book)
}

/// Returns whether a name is printed as `text`.
fn is_printed(alloc: Global, name: Name, text: &str) -> Result<bool, Fail> {
    Ok(format!(in alloc; "{name}")?.as_str() == text && name.digits().as_slice() == text.as_bytes())
}

/// The name of a token is the one that Python computes, with any password.
#[test]
fn name_with_any_password(rt: HostRuntime) -> Result<(), Fail> {
    let salt = salt()?;
    for password in [Password::NoneAllowed, Password::NotChecked] {
        let token = token_of_ann(password).ok_or_else(|| Fail::new("no token"))?;
        let name = name_of(&salt, &token);
        assert!(rt; is_printed(rt.alloc(), name, "307833ca624cd1a96259c65c91bb8901")?);
    }
    Ok(())
}

/// The names of a book are in the order of its rows.
#[test]
fn names_in_order(rt: HostRuntime) -> Result<(), Fail> {
    let salt = salt()?;
    let names = names_of(rt.alloc(), &salt, &book_of_rows(rt.alloc())?)?;
    assert!(rt; names.len() == NAMES.len());
    for (name, text) in names.iter().zip(NAMES) {
        assert!(rt; is_printed(rt.alloc(), *name, text)?);
    }
    Ok(())
}

/// The seeds of tokens are those that Python computes.
#[test]
fn seeds_of_a_book(rt: HostRuntime) -> Result<(), Fail> {
    let salt = salt()?;
    let book = book_of_rows(rt.alloc())?;
    assert!(rt; book.len() == SEEDS.len());
    for row in 0..book.len() as u32 {
        let token = book.token(TokenId::new(row).unwrap());
        let digits = Name::new(seed_of(&salt, token)).digits();
        assert!(rt; digits.as_slice() == SEEDS[row as usize].as_bytes());
    }
    Ok(())
}

/// A fault says which row has the name again.
#[test]
fn text_of_a_fault(rt: HostRuntime) -> Result<(), Fail> {
    let fault = NamesFault::SameName { row: 3 };
    assert!(rt; format!(in rt.alloc(); "{fault}")?.as_str() == "row 3: SameName");
    assert!(rt; format!(in rt.alloc(); "{}", NamesFault::Memory)?.as_str() == "out of memory");
    Ok(())
}

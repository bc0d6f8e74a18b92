//! Books with and without two rows of one seed.

use otp_core::Settings;
use shared_secrets::{SharedSecret, shared_secret};
use std::alloc::Global;
use std::test::Fail;
use token_file::{FromRead, read_book};

/// Returns the rows that share a seed in the users file `rows`.
fn shared_in(alloc: Global, rows: &[u8]) -> Result<Option<SharedSecret>, Fail> {
    let settings = Settings::new(10, 1, 100).unwrap();
    let (book, _) = read_book(alloc, &mut FromRead::new(rows), settings, 59)?;
    Ok(shared_secret(alloc, &book)?)
}

/// Comments count no row, and the user, the password, the digits and the hash don't matter.
#[test]
fn rows_of_one_seed(rt: HostRuntime) -> Result<(), Fail> {
    let rows =
        b"# site 1\nHOTP a - 3132\nHOTP/T30 b - 3132\n# b again\nHOTP/T30/8/SHA256 c pw 3132\n\
        HOTP/E/7 d + 3132\n";
    let shared = SharedSecret {
        first: 2,
        second: 3,
    };
    assert!(rt; shared_in(rt.alloc(), rows)? == Some(shared));
    Ok(())
}

/// Another kind or another secret is another seed.
#[test]
fn rows_of_other_seeds(rt: HostRuntime) -> Result<(), Fail> {
    let rows =
        b"HOTP a - 3132\nHOTP/T30 b - 3132\nHOTP/T60 c - 3132\nHOTP d - 31\nHOTP e - 313200\n";
    assert!(rt; shared_in(rt.alloc(), rows)?.is_none());
    assert!(rt; shared_in(rt.alloc(), b"")?.is_none());
    Ok(())
}

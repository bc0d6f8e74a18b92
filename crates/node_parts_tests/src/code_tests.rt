//! The vectors of the standards: HMAC (RFC 2202, RFC 4231), HOTP (RFC 4226) and TOTP (RFC 6238).

use hmac_core::{Hash, Keyed, Mac, hmac};
use otp_core::{Codes, Digits, Factor, MOMENTS_END, code, step, truncate};
use secret_text::read_hex;

/// The hash, the key, the message and the MAC of a test case.
type Case = (Hash, &'static [u8], &'static [u8], &'static [u8]);

/// The test cases: of RFC 2202 1, 2 and 6 by SHA-1, of RFC 4231 1 by SHA-256 and SHA-512.
///
/// Further cases have keys of one block and of one byte more. OpenSSL computed their MACs.
const CASES: &[Case] = &[
    (
        Hash::Sha1,
        &[0x0b; 20],
        b"Hi There",
        b"b617318655057264e28bc0b6fb378c8ef146be00",
    ),
    (
        Hash::Sha256,
        &[0x0b; 20],
        b"Hi There",
        b"b0344c61d8db38535ca8afceaf0bf12b881dc200c9833da726e9376c2e32cff7",
    ),
    (
        Hash::Sha512,
        &[0x0b; 20],
        b"Hi There",
        b"87aa7cdea5ef619d4ff0b4241a1d6cb02379f4e2ce4ec2787ad0b30545e17cde\
daa833b7d6b8a702038b274eaea3f4e4be9d914eeb61f1702e696c203a126854",
    ),
    (
        Hash::Sha1,
        b"Jefe",
        b"what do ya want for nothing?",
        b"effcdf6ae5eb2fa2d27416d5f184df9c259a7c79",
    ),
    (
        Hash::Sha1,
        &[0xaa; 80],
        b"Test Using Larger Than Block-Size Key - Hash Key First",
        b"aa4ae5e15272d00e95705637ce8a3b55ed402112",
    ),
    (
        Hash::Sha1,
        &[0xaa; 64],
        b"Hi There",
        b"e83ee1c362c86cc004df4f912a641c1bd844f36c",
    ),
    (
        Hash::Sha1,
        &[0xaa; 65],
        b"Hi There",
        b"5c0fb63dc6aea0bed8fa2f8ea120a144e15cbd50",
    ),
    (
        Hash::Sha256,
        &[0xaa; 64],
        b"Hi There",
        b"ebef34e13d0a0fe04593d043bc7a865106db0604211d404c18206d862e5d7852",
    ),
    (
        Hash::Sha256,
        &[0xaa; 65],
        b"Hi There",
        b"00af6c42340b99e2e1d9a1cdf1547be431fe2e9bab3215c68d013ba858891927",
    ),
    (
        Hash::Sha512,
        &[0xaa; 128],
        b"Hi There",
        b"17eb09b3d3c0f3ac497c608347e1d5b5df5e4b062bfd56c191c8499f24a3a9d1\
c3dfb449d01f4c9ca316b6b8d6a6299bad883d0bffe11c88c60d7daed6feeb48",
    ),
    (
        Hash::Sha512,
        &[0xaa; 129],
        b"Hi There",
        b"da329f7dbde1631286451a0404a7cc75656497f5fc8ecc2ed1c384e3a8368524\
3bf1792cc06c745a466f50c04c99cc5a7fbe1a67e4bbdcf922f1ee4108b3e328",
    ),
];

/// Returns whether a case has its MAC, also by a key that is set up once for two messages.
fn has_mac(case: &Case) -> bool {
    let (hash, key, message, want) = *case;
    let mac = hmac(hash, key, message);
    let keyed = Keyed::new(hash, key);
    let is_right = match read_hex(want) {
        Ok(bytes) => mac.as_slice() == bytes.as_slice(),
        Err(_) => false,
    };
    is_right && keyed.mac(b"") != mac && keyed.mac(message) == mac
}

#[test]
fn macs_of_the_standards(rt: HostRuntime) {
    for case in CASES {
        assert!(rt; has_mac(case));
    }
}

/// The secret of RFC 4226, Appendix D, and of RFC 6238, Appendix B, for each hash.
const SECRET: &[u8; 64] = b"1234567890123456789012345678901234567890123456789012345678901234";

/// Returns whether the code of `counter` under the secret is `want`, also by a key that is set up once.
fn has_code(keyed: &Codes, counter: u64, want: &[u8]) -> bool {
    let Some(factor) = Factor::new(counter) else {
        return false;
    };
    let code = code(Hash::Sha1, &SECRET[..20], factor, Digits::Six);
    code.as_slice() == want && keyed.at(factor) == code
}

/// The codes of RFC 4226, Appendix D, from counter 0 on.
const CODES: &[&[u8; 6]] = &[
    b"755224", b"287082", b"359152", b"969429", b"338314", b"254676", b"287922", b"162583",
    b"399871", b"520489",
];

#[test]
fn hotp_table(rt: HostRuntime) {
    let keyed = Codes::new(Hash::Sha1, &SECRET[..20], Digits::Six);
    for (counter, want) in (0..).zip(CODES) {
        assert!(rt; has_code(&keyed, counter, *want));
    }
}

/// A moment, and its codes by SHA-1, SHA-256 and SHA-512.
type Moment = (u64, &'static [u8], &'static [u8], &'static [u8]);

/// The codes of RFC 6238, Appendix B, at steps of 30 seconds from 1970 on.
const MOMENTS: &[Moment] = &[
    (59, b"94287082", b"46119246", b"90693936"),
    (1111111109, b"07081804", b"68084774", b"25091201"),
    (1111111111, b"14050471", b"67062674", b"99943326"),
    (1234567890, b"89005924", b"91819424", b"93441116"),
    (2000000000, b"69279037", b"90698825", b"38618901"),
    (20000000000, b"65353130", b"77737706", b"47863826"),
];

/// Returns whether the code of a factor by a hash is `want`.
fn is_code(hash: Hash, secret: &[u8], factor: Factor, want: &[u8]) -> bool {
    code(hash, secret, factor, Digits::Eight).as_slice() == want
}

/// Returns whether a moment has its codes.
fn has_codes(moment: &Moment) -> bool {
    let (seconds, sha1, sha256, sha512) = *moment;
    if seconds >= MOMENTS_END {
        return false;
    }
    let Some(factor) = step(seconds, 0, 30) else {
        return false;
    };
    is_code(Hash::Sha1, &SECRET[..20], factor, sha1)
        && is_code(Hash::Sha256, &SECRET[..32], factor, sha256)
        && is_code(Hash::Sha512, SECRET, factor, sha512)
}

#[test]
fn totp_table(rt: HostRuntime) {
    for moment in MOMENTS {
        assert!(rt; has_codes(moment));
    }
}

/// The example of RFC 4226, section 5.4.
#[test]
fn truncation(rt: HostRuntime) {
    let digest = [
        0x1f, 0x86, 0x98, 0x69, 0x0e, 0x02, 0xca, 0x16, 0x61, 0x85, 0x50, 0xef, 0x7f, 0x19, 0xda,
        0x8e, 0x94, 0x5b, 0x55, 0x5a,
    ];
    let number = Mac::new(&digest).map(|mac| truncate(&mac));
    // The last six digits are 872921.
    assert!(rt; number == Some(1_357_872_921));
}

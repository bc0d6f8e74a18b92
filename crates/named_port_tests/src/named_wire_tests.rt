//! A datagram that Python's hmac tagged.

use named_wire::{Head, Kind, MAX_DATAGRAM_LEN, read_datagram, write_datagram};
use std::test::Fail;
use vote_wire::ClusterKey;

/// A Floors of node 9 in its last boot, for node 1, with the body `body` under the key `0123456789abcdef`.
const FLOORS: [u8; 34] = [
    0x4f, 0x56, 0x03, 0x05, 0x09, 0x01, 0x3f, 0xff, 0xff, 0xff, 0xff, 0xff, 0xff, 0xff, 0x62, 0x6f,
    0x64, 0x79, 0x84, 0x14, 0x43, 0xa1, 0x57, 0xa7, 0xc5, 0xc3, 0x96, 0x9b, 0x01, 0x50, 0x3e, 0xed,
    0x7d, 0x98,
];

/// A datagram is written as Python writes it, and read again; one with another byte is not.
#[test]
fn floors_both_ways(rt: HostRuntime) -> Result<(), Fail> {
    let key = ClusterKey::new(b"0123456789abcdef").ok_or_else(|| Fail::new("no key"))?;
    let boot = (1 << 62) - 1;
    let head = Head {
        kind: Kind::Floors,
        from: 9,
        to: 1,
        boot,
    };
    assert!(rt;
        write_datagram::<MAX_DATAGRAM_LEN>(&key, head, b"body").as_slice() == FLOORS.as_slice()
    );
    assert!(rt; read_datagram(&key, &FLOORS) == Some((head, b"body".as_slice())));
    let mut other = FLOORS;
    other[13] = 0;
    assert!(rt; read_datagram(&key, &other).is_none());
    Ok(())
}

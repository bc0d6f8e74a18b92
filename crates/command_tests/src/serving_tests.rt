//! The parameters and the socket of a node that is served several times.

use node_serving::{ClientLines, KeptSocket, NodeKey, Serving};
use otp_core::Settings;
use std::net::{Ipv4Addr, SocketAddrV4};
use std::test::Fail;
use vote_core::Place;
use vote_wire::ClusterKey;

#[test]
fn parameters_are_given_again(rt: HostRuntime) -> Result<(), Fail> {
    let alloc = rt.alloc();
    let (Some(key), Some(place)) = (ClusterKey::new(&[7; 32]), Place::new(1, 1)) else {
        return Err("a key and a place".into());
    };
    let address = SocketAddrV4::new(Ipv4Addr::LOCALHOST, 7001);
    let serving = Serving {
        settings: Settings::default(),
        place,
        members: vec![in alloc; address]?,
        key: NodeKey::Own(key),
        turns: 5,
        is_logged: true,
        lines: ClientLines::ThisMachine,
    };
    let again = serving.again(alloc, 3)?;
    assert!(rt; again.turns == 3 && again.is_logged && again.place.me() == 1);
    assert!(rt; again.members.as_slice() == [address].as_slice());
    match (&again.key, &again.lines) {
        (NodeKey::Own(key), ClientLines::ThisMachine) => {
            assert!(rt; key.as_slice() == [7; 32].as_slice());
            Ok(())
        }
        _ => Err("another key, or other lines".into()),
    }
}

#[test]
fn a_socket_is_bound_once(rt: HostRuntime) -> Result<(), Fail> {
    let mut kept = KeptSocket::new();
    let address = SocketAddrV4::new(Ipv4Addr::LOCALHOST, 0);
    let first = kept.handle(&rt, address)?.local_addr()?;
    let second = kept.handle(&rt, address)?.local_addr()?;
    assert!(rt; first == second);
    Ok(())
}

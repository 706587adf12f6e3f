//! One ask over the sockets of this machine.
use crate::{TcpAcceptor, TcpLink};
use link::{Sink, Source};
use std::test::Fail;
use sync_http::{Address, read_address};
use sync_link::{Acceptor, Link};

// The first of these ports at which a door listens that nobody has.
fn free_port(door: &mut TcpAcceptor<HostRuntime>) -> Option<u16> {
    for port in 38_211..38_231 {
        if door.next(port, false).is_ok() {
            return Some(port);
        }
    }
    None
}

fn address_at(rt: &HostRuntime, port: u16) -> Option<Address> {
    let text = format!(in rt.alloc(); "http://127.0.0.1:{port}/db").ok()?;
    read_address(rt.alloc(), text.as_str()).ok()
}

// A door serves one ask of a link: what is sent is read, and what is put is received, up to its end.
fn is_carried(rt: &HostRuntime) -> Option<bool> {
    let mut door = TcpAcceptor::new(rt.clone().ok()?);
    let mut asks = TcpLink::new(rt.alloc(), rt.clone().ok()?);
    let port = free_port(&mut door)?;
    asks.begin(&address_at(rt, port)?).ok()?;
    asks.send(b"ask").ok()?;
    let Some(mut conn) = door.next(port, true).ok()? else {
        return None;
    };
    let mut room = [0; 8];
    let is_asked = conn.read(&mut room) == Ok(3) && &room[..3] == b"ask".as_slice();
    conn.put(b"reply").ok()?;
    door.give_back(conn);
    asks.finish().ok()?;
    let is_replied = asks.receive(&mut room) == Ok(5) && &room[..5] == b"reply".as_slice();
    Some(is_asked && is_replied && asks.receive(&mut room).is_err() && asks.fault().is_some())
}

#[test]
fn an_ask_is_carried_and_answered(rt: HostRuntime) -> Result<(), Fail> {
    assert!(rt; is_carried(&rt) == Some(true));
    Ok(())
}

use crate::peers::{ADDRESS, PORT, connect, hear, is_shown, open};
use crate::streams::{large_pieces, many_in_turn, own_streams};
use mesh_links::call::LinkEvent;
use mesh_links::links::{LinkFault, Links};
use mio::net::TcpStream;
use mio_edge::mio_links::{ListenFault, MioLinks};
use std::alloc::Global;
use std::io::{self, ErrorKind, Write};
use std::net::{self, Ipv4Addr, Net, Shutdown, SocketAddr};
use std::process::Abort;
use std::sync::Wait;
use std::test::Fail;

// Bytes there and back, and the end of the input on both sides.
fn there_and_back<R: Net + Abort, N: Links>(
    rt: &R,
    alloc: Global,
    links: &mut N,
) -> Result<(), Fail> {
    let mut peer = open(rt, links, 1)?;
    let mut buf = [0; 16];
    assert_eq!(rt; links.read(1, &mut buf), Err(LinkFault::Pending));
    peer.write_all(b"hello")?;
    assert!(rt; is_shown(links, LinkEvent::Readable(1))?);
    assert_eq!(rt; links.read(1, &mut buf), Ok(5));
    assert_eq!(rt; &buf[..5], b"hello".as_slice());
    assert_eq!(rt; links.read(1, &mut buf), Err(LinkFault::Pending));

    assert_eq!(rt; links.write(1, b"there"), Ok(5));
    assert_eq!(rt; links.write(1, b""), Ok(0));
    assert_eq!(rt; hear(rt, alloc, &mut peer, &mut buf)?, 5);
    assert_eq!(rt; &buf[..5], b"there".as_slice());

    peer.shutdown(Shutdown::Write)?;
    assert!(rt; is_shown(links, LinkEvent::Readable(1))?);
    assert_eq!(rt; links.read(1, &mut buf), Ok(0));
    links.close(1);
    assert_eq!(rt; hear(rt, alloc, &mut peer, &mut buf)?, 0);
    Ok(())
}

// A link that is closed, or was never there, fails, and its number isn't used again.
fn closed_links<R: Net + Abort, N: Links>(rt: &R, links: &mut N) -> Result<(), Fail> {
    let mut buf = [0; 16];
    assert_eq!(rt; links.read(1, &mut buf), Err(LinkFault::Failed));
    assert_eq!(rt; links.write(1, b"x"), Err(LinkFault::Failed));
    assert_eq!(rt; links.write(9, b"x"), Err(LinkFault::Failed));
    links.close(1);
    links.close(9);
    let _peer = open(rt, links, 2)?;
    links.close(2);
    Ok(())
}

// Writes until the link accepts no more.
fn fill<N: Links>(links: &mut N, link: u32) -> usize {
    let piece = [7; 65536];
    let mut total = 0usize;
    for _ in 0..10_000 {
        match links.write(link, &piece) {
            Ok(n) => total = total.saturating_add(n),
            Err(_) => return total,
        }
    }
    total
}

// Reads so many bytes at the peer.
fn drain(rt: &impl Net, alloc: Global, peer: &mut TcpStream, total: usize) -> io::Result<usize> {
    let mut buf = [0; 65536];
    let mut left = total;
    for _ in 0..100_000 {
        if left == 0 {
            return Ok(0);
        }
        let n = hear(rt, alloc, peer, &mut buf)?;
        left = left.saturating_sub(n);
    }
    Ok(left)
}

// A link that accepted no more is shown as writable once its peer has read.
fn full_link<R: Net + Abort, N: Links>(rt: &R, alloc: Global, links: &mut N) -> Result<(), Fail> {
    let mut peer = open(rt, links, 3)?;
    assert!(rt; is_shown(links, LinkEvent::Writable(3))?);
    let total = fill(links, 3);
    assert_eq!(rt; links.write(3, b"x"), Err(LinkFault::Pending));
    assert_eq!(rt; drain(rt, alloc, &mut peer, total)?, 0);
    assert!(rt; is_shown(links, LinkEvent::Writable(3))?);
    assert_eq!(rt; links.write(3, b"x"), Ok(1));
    links.close(3);
    Ok(())
}

// More connections at once than one poll accepts. Each link is that of its own peer.
fn many_links<R: Net + Abort, N: Links>(rt: &R, alloc: Global, links: &mut N) -> Result<(), Fail> {
    let mut peers = Vec::new(alloc);
    for _ in 0..100 {
        peers.push(connect(rt)?)?;
    }
    assert!(rt; is_shown(links, LinkEvent::New(103))?);
    for link in 4..104u8 {
        assert_eq!(rt; links.write(u32::from(link), &[link]), Ok(1));
    }
    let mut buf = [0; 16];
    for (link, peer) in (4..104u8).zip(peers.iter_mut()) {
        assert_eq!(rt; hear(rt, alloc, peer, &mut buf)?, 1);
        assert_eq!(rt; buf[0], link);
        links.close(u32::from(link));
    }
    Ok(())
}

// How the system refuses to listen at an address, if it does, and with which reason.
fn refused<R: Net + Wait>(rt: &R, alloc: Global, address: &str) -> Option<Option<ErrorKind>> {
    match MioLinks::listen(rt, alloc, address) {
        Err(ListenFault::Failed(error)) => Some(error.map(|error| error.kind())),
        Err(ListenFault::Memory) | Ok(_) => None,
    }
}

// Whether another address of the loopback interface is refused on the same port.
fn is_refused(rt: &impl Net) -> bool {
    let other = SocketAddr::from((Ipv4Addr::new(127, 0, 0, 2), PORT));
    match net::TcpStream::connect(rt, other) {
        Err(error) => error.kind() == ErrorKind::ConnectionRefused,
        Ok(_) => false,
    }
}

#[test]
fn links_over_loopback(rt: HostRuntime) -> Result<(), Fail> {
    let alloc = rt.alloc();
    assert_eq!(rt; refused(&rt, alloc, "127.0.0.1"), Some(None));
    let mut links = MioLinks::listen(&rt, alloc, ADDRESS)?;
    let in_use = Some(Some(ErrorKind::AddrInUse));
    assert_eq!(rt; refused(&rt, alloc, ADDRESS), in_use);
    assert!(rt; is_refused(&rt));
    for _ in 0..3 {
        assert_eq!(rt; links.poll(false)?.as_slice(), [].as_slice());
    }
    there_and_back(&rt, alloc, &mut links)?;
    closed_links(&rt, &mut links)?;
    full_link(&rt, alloc, &mut links)?;
    many_links(&rt, alloc, &mut links)?;
    own_streams(&rt, alloc, &mut links)?;
    large_pieces(&rt, alloc, &mut links)?;
    many_in_turn(&rt, &mut links)
}

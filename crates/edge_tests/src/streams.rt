// That each link has the bytes of its own peer, all of them, and its own descriptor.
ghost use Rattle.std.specs.Prelude.{◌<◌, ◌-◌, ◌^◌};

use crate::peers::{hear, is_shown, open};
use mesh_links::call::LinkEvent;
use mesh_links::links::{LinkFault, Links, PollFault};
use mio::net::TcpStream;
use std::alloc::Global;
use std::io::{self, Write};
use std::net::Net;
use std::os::fd::AsRawFd;
use std::process::Abort;
use std::test::Fail;

// Two links that are read, written and closed in another order than they were opened in.
pub(crate) fn own_streams<R: Net + Abort, N: Links>(
    rt: &R,
    alloc: Global,
    links: &mut N,
) -> Result<(), Fail> {
    let mut first = open(rt, links, 104)?;
    let mut second = open(rt, links, 105)?;
    first.write_all(b"first")?;
    second.write_all(b"the second")?;
    let mut buf = [0; 16];
    assert!(rt; is_shown(links, LinkEvent::Readable(105))?);
    assert_eq!(rt; links.read(105, &mut buf), Ok(10));
    assert_eq!(rt; &buf[..10], b"the second".as_slice());
    assert_eq!(rt; links.read(104, &mut buf), Ok(5));
    assert_eq!(rt; &buf[..5], b"first".as_slice());

    assert_eq!(rt; links.write(105, b"to the second"), Ok(13));
    assert_eq!(rt; links.write(104, b"to it"), Ok(5));
    assert_eq!(rt; hear(rt, alloc, &mut first, &mut buf)?, 5);
    assert_eq!(rt; &buf[..5], b"to it".as_slice());
    assert_eq!(rt; hear(rt, alloc, &mut second, &mut buf)?, 13);

    links.close(104);
    assert_eq!(rt; hear(rt, alloc, &mut first, &mut buf)?, 0);
    assert_eq!(rt; links.read(104, &mut buf), Err(LinkFault::Failed));
    assert_eq!(rt; links.write(105, b"on"), Ok(2));
    assert_eq!(rt; hear(rt, alloc, &mut second, &mut buf)?, 2);
    links.close(105);
    Ok(())
}

// The byte that stands at a place of a long piece. Its period divides no buffer.
fn byte_at(place: usize) -> u8 {
    (place % 251) as u8
}

// Whether bytes are those of a long piece from a place on.
fn are_from(bytes: &[u8], start: usize) -> bool {
    let mut place = start;
    for byte in bytes {
        if *byte != byte_at(place) {
            return false;
        }
        place = place.saturating_add(1);
    }
    true
}

// Whether a link reads so many bytes of a long piece, each in its place.
fn is_read<N: Links>(links: &mut N, link: u32, total: usize) -> Result<bool, PollFault> {
    let mut buf = [0; 65536];
    let mut place = 0usize;
    for _ in 0..1_000 {
        if place >= total {
            break;
        }
        match links.read(link, &mut buf) {
            Ok(n) if are_from(&buf[..n], place) => place = place.saturating_add(n),
            Ok(_) => return Ok(false),
            Err(_) => {
                links.poll(true)?;
            }
        }
    }
    Ok(place == total)
}

// Whether a peer hears so many bytes of a long piece, each in its place.
fn is_heard(rt: &impl Net, alloc: Global, peer: &mut TcpStream, total: usize) -> io::Result<bool> {
    let mut buf = [0; 65536];
    let mut place = 0usize;
    for _ in 0..1_000 {
        if place >= total {
            break;
        }
        let n = hear(rt, alloc, peer, &mut buf)?;
        if !are_from(&buf[..n], place) {
            return Ok(false);
        }
        place = place.saturating_add(n);
    }
    Ok(place == total)
}

// Pieces of more than 16,384 bytes, in both directions, byte for byte.
pub(crate) fn large_pieces<R: Net + Abort, N: Links>(
    rt: &R,
    alloc: Global,
    links: &mut N,
) -> Result<(), Fail> {
    let mut peer = open(rt, links, 106)?;
    let mut piece = [0; 60_000];
    for place in 0..60_000usize {
        piece[place] = byte_at(place);
    }
    let sent = peer.write(&piece)?;
    assert!(rt; sent > 16_384);
    assert!(rt; is_read(links, 106, sent)?);
    let written = match links.write(106, &piece) {
        Ok(n) => n,
        Err(_) => 0,
    };
    assert!(rt; written > 16_384);
    assert!(rt; is_heard(rt, alloc, &mut peer, written)?);
    links.close(106);
    Ok(())
}

// The descriptor of the second of two new peers. It is low if no closed link has kept its own.
fn second_descriptor<R: Net + Abort, N: Links>(
    rt: &R,
    links: &mut N,
    link: u32,
) -> Result<i32, Fail>
    requires { link < 2 ^ 32 - 1 }
{
    let _first = open(rt, links, link)?;
    let second = open(rt, links, link + 1)?;
    links.close(link);
    links.close(link + 1);
    Ok(second.as_raw_fd())
}

// 2,000 links, one after the other. Each has its number and its byte, and leaves no descriptor.
pub(crate) fn many_in_turn<R: Net + Abort, N: Links>(rt: &R, links: &mut N) -> Result<(), Fail> {
    let mut buf = [0; 16];
    let before = second_descriptor(rt, links, 107)?;
    for link in 109..2_109u32 {
        let mut peer = open(rt, links, link)?;
        let byte = (link % 256) as u8;
        peer.write_all(&[byte])?;
        assert!(rt; is_shown(links, LinkEvent::Readable(link))?);
        assert_eq!(rt; links.read(link, &mut buf), Ok(1));
        assert_eq!(rt; buf[0], byte);
        links.close(link);
    }
    assert_eq!(rt; second_descriptor(rt, links, 2_109)?, before);
    Ok(())
}

// Links over the loopback interface, and peers of them.
ghost use Rattle.std.specs.Io.{ReadsAtMost};

use mesh_links::call::LinkEvent;
use mesh_links::links::{Links, PollFault};
use mio::net::TcpStream;
use mio::{Events, Interest, Poll, Token};
use std::alloc::Global;
use std::io::{self, Read};
use std::net::{Ipv4Addr, Net, SocketAddr};
use std::process::Abort;
use std::test::Fail;
use std::time::Duration;

/// Where the tests listen, one after the other.
pub(crate) const ADDRESS: &str = "127.0.0.1:41431";

/// The port of `ADDRESS`.
pub(crate) const PORT: u16 = 41431;

/// Connects a peer.
pub(crate) fn connect(rt: &impl Net) -> io::Result<TcpStream> {
    TcpStream::connect(rt, SocketAddr::from((Ipv4Addr::LOCALHOST, PORT)))
}

/// Polls until the event is shown, which a few polls should do.
pub(crate) fn is_shown<N: Links>(links: &mut N, event: LinkEvent) -> Result<bool, PollFault> {
    for _ in 0..100 {
        if links.poll(true)?.as_slice().contains(&event) {
            return Ok(true);
        }
    }
    Ok(false)
}

/// Connects a peer, whose link has this number.
pub(crate) fn open<R: Net + Abort, N: Links>(
    rt: &R,
    links: &mut N,
    link: u32,
) -> Result<TcpStream, Fail> {
    let peer = connect(rt)?;
    assert!(rt; is_shown(links, LinkEvent::New(link))?);
    Ok(peer)
}

/// Reads what comes to the peer, and waits for it.
pub(crate) fn hear(
    rt: &impl Net,
    alloc: Global,
    peer: &mut TcpStream,
    buf: &mut [u8],
) -> io::Result<usize>
    ensures bound { ReadsAtMost result buf.new }
{
    let mut poll = Poll::new(rt)?;
    let mut events = Events::with_capacity(alloc, 4)?;
    poll.registry()
        .register(peer, Token(0), Interest::READABLE)?;
    poll.poll(&mut events, Some(Duration::from_secs(20)))?;
    poll.registry().deregister(peer)?;
    peer.read(buf)
}

// The listener, with the address that it was asked to listen at.
ghost use Rattle.std.specs.Prelude.{◌≡◌, IfOk};

use mio::net::{TcpListener, TcpStream};
use mio::{Interest, Registry, Token};
use std::io;
use std::net::{Net, SocketAddr};

/// The listener's token. That of a link is its number.
pub(crate) const LISTENER: Token = Token(0);

/// A listener and the address that the system was asked for.
#[derive(Drop)]
pub(crate) struct Bound {
    listener: TcpListener,
    address: SocketAddr,
}

impl Bound {
    /// Listens at an address.
    pub(crate) fn listen(net: &impl Net, address: SocketAddr) -> io::Result<Bound>
        ensures address { IfOk result (λ bound. bound.address ≡ address) }
    {
        Ok(Bound {
            listener: TcpListener::bind(net, address)?,
            address,
        })
    }

    /// Makes polls show when connections wait.
    pub(crate) fn watch(&mut self, registry: &Registry) -> io::Result<()>
        ensures address { self.new.address ≡ self.old.address }
    {
        registry.register(&mut self.listener, LISTENER, Interest::READABLE)
    }

    /// Accepts a connection, if one waits.
    pub(crate) fn accept(&self) -> io::Result<TcpStream> {
        let (stream, _) = self.listener.accept()?;
        Ok(stream)
    }
}

// Links whose traffic is counted.
use crate::screen::LinkScreen;
use mesh_base::list::List;
use mesh_links::call::LinkEvent;
use mesh_links::links::{LinkFault, Links, PollFault};
use std::io::Write;
use std::time::Clock;

/// Links that pass on each call to others. If there is a screen, their traffic is counted, and
/// shown on it before a poll.
#[derive(Drop)]
pub struct CountedLinks<L: Links, C, W> {
    links: L,
    pub screen: Option<LinkScreen<C, W>>,
}

impl<L: Links, C: Clock, W: Write> CountedLinks<L, C, W> {
    ghost use Rattle.std.specs.Prelude.{◌≡◌};

    pub fn new(links: L, screen: Option<LinkScreen<C, W>>) -> CountedLinks<L, C, W>
        ensures { result.links ≡ links }
    {
        CountedLinks { links, screen }
    }

    /// Clears the line of the screen.
    pub fn clear(&mut self)
        ensures { self.new.links ≡ self.old.links }
    {
        if let Some(screen) = &mut self.screen {
            screen.clear();
        }
    }
}

impl<L: Links, C: Clock, W: Write> Links for CountedLinks<L, C, W> {
    ghost trace = { λ s. L.trace s.links };

    ghost counts = { λ s. L.counts s.links };

    fn poll(&mut self, wait: bool) -> Result<List<LinkEvent>, PollFault> {
        let Some(screen) = &mut self.screen else {
            return self.links.poll(wait);
        };
        screen.show();
        let events = self.links.poll(wait)?;
        screen.tally.note(events.as_slice());
        Ok(events)
    }

    fn read(&mut self, link: u32, buf: &mut [u8]) -> Result<usize, LinkFault> {
        let n = self.links.read(link, buf)?;
        if let Some(screen) = &mut self.screen {
            screen.tally.read(link, &buf[..n]);
        }
        Ok(n)
    }

    fn write(&mut self, link: u32, piece: &[u8]) -> Result<usize, LinkFault> {
        let n = self.links.write(link, piece)?;
        if let Some(screen) = &mut self.screen {
            screen.tally.write(link, &piece[..n]);
        }
        Ok(n)
    }

    fn close(&mut self, link: u32) {
        self.links.close(link);
        if let Some(screen) = &mut self.screen {
            screen.tally.close(link);
        }
    }
}

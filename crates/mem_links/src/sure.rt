// Links that play a script without failures.
ghost use Rattle.std.specs.Prelude.{◌≡◌, [], false, Some};
ghost use Rattle.mesh_outside.specs.Causes.{none_ever};
ghost use Rattle.mem_links.specs.Counted.{counts_of};

use crate::mem::MemLinks;
use crate::step::MemStep;
use mesh_base::list::List;
use mesh_links::call::{LinkCall, LinkEvent};
use mesh_links::links::{LinkFault, Links, PollFault};
use std::alloc::Global;

/// Links in memory that play a script. No call fails, except if it is out of memory.
#[derive(Drop)]
pub struct SureLinks {
    links: MemLinks,
    ghost sure: { links.play.may_fail ≡ false },
}

impl SureLinks {
    /// Creates links at the beginning of a script. Steps that make a call fail are left out.
    pub fn new(alloc: Global, script: List<MemStep>) -> SureLinks
        ensures trace { ⟦<SureLinks as Links>⟧.trace result ≡ Some [] }
        ensures counts { ⟦<SureLinks as Links>⟧.counts result ≡ counts_of none_ever none_ever 0 }
    {
        let mut steps = script.into_vec();
        steps.retain(|step| !step.fails());
        SureLinks {
            links: MemLinks::playing(alloc, List::from_vec(steps), false),
        }
    }

    /// Returns the calls so far with their results, the oldest first.
    pub fn trace(&self) -> &[LinkCall]
        ensures { ⟦<SureLinks as Links>⟧.trace self.now ≡ Some result.now }
    {
        self.links.trace()
    }
}

impl Links for SureLinks {
    ghost trace = { λ s. Some s.links.trace.items };

    ghost counts = { λ s. counts_of none_ever none_ever s.links.pendings };

    fn poll(&mut self, wait: bool) -> Result<List<LinkEvent>, PollFault> {
        self.links.poll(wait)
    }

    fn read(&mut self, link: u32, buf: &mut [u8]) -> Result<usize, LinkFault> {
        self.links.read(link, buf)
    }

    fn write(&mut self, link: u32, piece: &[u8]) -> Result<usize, LinkFault> {
        self.links.write(link, piece)
    }

    fn close(&mut self, link: u32) {
        self.links.close(link);
    }
}

// The traffic of all links.
use crate::counts::LinkCounts;
use crate::meter::LinkMeter;
use mesh_links::call::LinkEvent;
use std::alloc::Global;
use std::collections::BTreeMap;

// The traffic of all links, and the state of the open ones.
#[derive(Drop)]
pub(crate) struct LinkTally {
    meters: BTreeMap<u32, LinkMeter>,
    lines: u64,
    frames: u64,
}

impl LinkTally {
    pub(crate) fn new(alloc: Global) -> LinkTally {
        LinkTally {
            meters: BTreeMap::new(alloc),
            lines: 0,
            frames: 0,
        }
    }

    // Records events. A link for which there is no memory is not counted.
    pub(crate) fn note(&mut self, events: &[LinkEvent]) {
        for event in events {
            if let LinkEvent::New(link) = event {
                let _ = self.meters.insert(*link, LinkMeter::NEW);
            }
        }
    }

    pub(crate) fn read(&mut self, link: u32, piece: &[u8]) {
        if let Some(meter) = self.meters.get_mut(&link) {
            self.lines = self.lines.saturating_add(meter.read(piece));
        }
    }

    pub(crate) fn write(&mut self, link: u32, piece: &[u8]) {
        if let Some(meter) = self.meters.get_mut(&link) {
            self.frames = self.frames.saturating_add(meter.write(piece));
        }
    }

    pub(crate) fn close(&mut self, link: u32) {
        self.meters.remove(&link);
    }

    pub(crate) fn counts(&self) -> LinkCounts {
        let meters = &self.meters;
        LinkCounts {
            links: meters.len() as u64,
            feeds: meters.values().filter(|meter| meter.is_feed()).count() as u64,
            subscriptions: meters
                .values()
                .filter(|meter| meter.is_subscription())
                .count() as u64,
            lines: self.lines,
            frames: self.frames,
        }
    }
}

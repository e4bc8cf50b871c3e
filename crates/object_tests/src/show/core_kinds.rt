use super::{Page, Show};
use view_types::pod::Pod;
use view_types::service::{NamedPort, Service};
use view_types::slice::{Family, Point, Slice};

impl Show for NamedPort {
    fn show(&self, page: &mut Page) {
        page.first("name", &self.name);
        page.next("port", &self.port);
        page.last("tcp", &self.tcp);
    }
}

impl Show for Pod {
    fn show(&self, page: &mut Page) {
        page.first("meta", &self.meta);
        page.next("account", &self.account);
        page.next("host_network", &self.host_network);
        page.next("node", &self.node);
        page.next("phase", &self.phase);
        page.next("addrs", &self.addrs);
        if self.probes.as_slice().is_empty() {
            page.last("ports", &self.ports);
            return;
        }
        page.next("ports", &self.ports);
        page.last("probes", &self.probes);
    }
}

impl Show for Service {
    fn show(&self, page: &mut Page) {
        page.first("meta", &self.meta);
        page.next("external", &self.external);
        page.next("addrs", &self.addrs);
        page.last("ports", &self.ports);
    }
}

impl Show for Family {
    fn show(&self, page: &mut Page) {
        page.put(match self {
            Family::V4 => "V4",
            Family::V6 => "V6",
            Family::Fqdn => "Fqdn",
        });
    }
}

impl Show for Point {
    fn show(&self, page: &mut Page) {
        page.first("addrs", &self.addrs);
        page.next("ready", &self.ready);
        page.last("pod", &self.pod);
    }
}

impl Show for Slice {
    fn show(&self, page: &mut Page) {
        page.first("meta", &self.meta);
        page.next("family", &self.family);
        page.next("points", &self.points);
        page.last("ports", &self.ports);
    }
}

use super::{Page, Show};
use object_store::change::Change;
use view_types::endpoint::{EndpointRow, EndpointView};

impl Show for EndpointRow {
    fn show(&self, page: &mut Page) {
        page.first("ip", &self.ip);
        page.next("port", &self.port);
        page.next("weight", &self.weight);
        page.next("labels", &self.labels);
        page.next("identity", &self.identity);
        page.next("tunnel", &self.tunnel);
        page.last("h2", &self.h2);
    }
}

impl Show for EndpointView {
    fn show(&self, page: &mut Page) {
        page.first("exists", &self.exists);
        page.last("rows", &self.rows);
    }
}

impl Show for Change {
    fn show(&self, page: &mut Page) {
        page.first("old", &self.old);
        page.last("new", &self.new);
    }
}

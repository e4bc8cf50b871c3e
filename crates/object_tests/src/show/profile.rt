use super::{Page, Show};
use view_types::profile::{Override, Profile, ProfileRoute, ReqMatch, RespClass, RespMatch};

impl Show for ReqMatch {
    #[cycle(show_req)]
    fn show(&self, page: &mut Page) {
        match self {
            ReqMatch::Method(name) => page.variant("Method", name),
            ReqMatch::Path(regex) => page.variant("Path", regex),
            ReqMatch::All(parts) => show_req_parts("All", parts.as_slice(), page),
            ReqMatch::Any(parts) => show_req_parts("Any", parts.as_slice(), page),
            ReqMatch::Not(part) => {
                page.put("Not(");
                part.get().show(page);
                page.put(")");
            }
        }
    }
}

#[cycle(show_req)]
fn show_req_parts(name: &str, parts: &[ReqMatch], page: &mut Page) {
    page.put(name);
    page.put("[");
    for part in parts {
        part.show(page);
        page.put(";");
    }
    page.put("]");
}

impl Show for RespMatch {
    #[cycle(show_resp)]
    fn show(&self, page: &mut Page) {
        match self {
            RespMatch::Status(least, greatest) => {
                page.put("Status");
                (*least, *greatest).show(page);
            }
            RespMatch::All(parts) => show_resp_parts("All", parts.as_slice(), page),
            RespMatch::Any(parts) => show_resp_parts("Any", parts.as_slice(), page),
            RespMatch::Not(part) => {
                page.put("Not(");
                part.get().show(page);
                page.put(")");
            }
        }
    }
}

#[cycle(show_resp)]
fn show_resp_parts(name: &str, parts: &[RespMatch], page: &mut Page) {
    page.put(name);
    page.put("[");
    for part in parts {
        part.show(page);
        page.put(";");
    }
    page.put("]");
}

impl Show for RespClass {
    fn show(&self, page: &mut Page) {
        page.first("condition", &self.condition);
        page.last("failure", &self.failure);
    }
}

impl Show for ProfileRoute {
    fn show(&self, page: &mut Page) {
        page.first("name", &self.name);
        page.next("condition", &self.condition);
        page.next("classes", &self.classes);
        page.next("retryable", &self.retryable);
        page.last("timeout", &self.timeout);
    }
}

impl Show for Override {
    fn show(&self, page: &mut Page) {
        page.first("authority", &self.authority);
        page.last("weight", &self.weight);
    }
}

impl Show for Profile {
    fn show(&self, page: &mut Page) {
        page.first("meta", &self.meta);
        page.next("routes", &self.routes);
        page.last("overrides", &self.overrides);
    }
}

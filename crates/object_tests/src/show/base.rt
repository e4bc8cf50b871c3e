use super::{Page, Show};
use k8s_meta::fault::ReadFault;
use k8s_meta::meta::Meta;
use label_select::selector::{SelOp, SelRule, Selector};
use mesh_base::key::{Kind, ObjKey};
use mesh_base::labels::Labels;
use mesh_base::text::Text;
use net_cidr::block::Block;
use net_cidr::ip::Ip;
use net_cidr::net::Net;

impl Show for bool {
    fn show(&self, page: &mut Page) {
        page.put_display(self);
    }
}

impl Show for u8 {
    fn show(&self, page: &mut Page) {
        page.put_display(self);
    }
}

impl Show for u16 {
    fn show(&self, page: &mut Page) {
        page.put_display(self);
    }
}

impl Show for u32 {
    fn show(&self, page: &mut Page) {
        page.put_display(self);
    }
}

impl Show for u64 {
    fn show(&self, page: &mut Page) {
        page.put_display(self);
    }
}

impl Show for Text {
    fn show(&self, page: &mut Page) {
        page.put("\"");
        page.put(self.as_str());
        page.put("\"");
    }
}

impl Show for Labels {
    fn show(&self, page: &mut Page) {
        page.put("{");
        for (i, (key, value)) in self.entries().iter().enumerate() {
            if i > 0 {
                page.put(",");
            }
            key.show(page);
            page.put(":");
            value.show(page);
        }
        page.put("}");
    }
}

/// Dotted, or 32 hexadecimal digits.
impl Show for Ip {
    fn show(&self, page: &mut Page) {
        match self {
            Ip::V4(number) => {
                let [a, b, c, d] = number.to_be_bytes();
                page.put_display(&format_args!("{a}.{b}.{c}.{d}"));
            }
            Ip::V6(number) => page.put_display(&format_args!("{number:032x}")),
        }
    }
}

impl Show for Net {
    fn show(&self, page: &mut Page) {
        self.base.show(page);
        page.put("/");
        self.bits.show(page);
    }
}

impl Show for Block {
    fn show(&self, page: &mut Page) {
        page.first("net", &self.net);
        page.last("except", &self.except);
    }
}

impl Show for SelOp {
    fn show(&self, page: &mut Page) {
        page.put_debug(self);
    }
}

impl Show for SelRule {
    fn show(&self, page: &mut Page) {
        page.first("key", &self.key);
        page.next("op", &self.op);
        page.last("values", &self.values);
    }
}

impl Show for Selector {
    fn show(&self, page: &mut Page) {
        page.first("exact", &self.exact);
        page.last("rules", &self.rules);
    }
}

impl Show for Kind {
    fn show(&self, page: &mut Page) {
        page.put_debug(self);
    }
}

impl Show for ObjKey {
    fn show(&self, page: &mut Page) {
        page.first("kind", &self.kind);
        page.next("ns", &self.ns);
        page.last("name", &self.name);
    }
}

impl Show for Meta {
    fn show(&self, page: &mut Page) {
        page.first("ns", &self.ns);
        page.next("name", &self.name);
        page.next("labels", &self.labels);
        page.next("notes", &self.notes);
        page.last("created", &self.created);
    }
}

impl Show for ReadFault {
    fn show(&self, page: &mut Page) {
        page.put_display(self);
    }
}

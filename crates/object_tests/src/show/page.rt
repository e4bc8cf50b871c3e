use mesh_base::boxed::Boxed;
use mesh_base::list::List;
use mesh_base::memory::Memory;
use std::alloc::{AllocError, Global};
use std::fmt::{Debug, Display};

/// What has a text.
pub trait Show {
    fn show(&self, page: &mut Page);
}

/// Texts, one after the other.
#[derive(Drop)]
pub struct Page {
    text: String,
    /// There was memory for all of them.
    whole: bool,
}

impl Page {
    pub fn new(alloc: Global) -> Page {
        Page {
            text: String::new(alloc),
            whole: true,
        }
    }

    pub fn into_text(self) -> Result<String, Memory> {
        if self.whole {
            Ok(self.text)
        } else {
            Err(Memory)
        }
    }

    pub fn put(&mut self, text: &str) {
        let done = self.text.push_str(text);
        self.note(done);
    }

    /// As it is printed.
    pub fn put_display<T: Display>(&mut self, value: &T) {
        let done = write!(self.text, "{value}");
        self.note(done);
    }

    pub fn put_debug<T: Debug>(&mut self, value: &T) {
        let done = write!(self.text, "{value:?}");
        self.note(done);
    }

    fn note(&mut self, done: Result<(), AllocError>) {
        if done.is_err() {
            self.whole = false;
        }
    }

    /// The first field of a struct.
    pub fn first<T: Show>(&mut self, name: &str, value: &T) {
        self.put("{");
        self.field(name, value);
    }

    pub fn next<T: Show>(&mut self, name: &str, value: &T) {
        self.put(",");
        self.field(name, value);
    }

    /// The last field of a struct.
    pub fn last<T: Show>(&mut self, name: &str, value: &T) {
        self.next(name, value);
        self.put("}");
    }

    fn field<T: Show>(&mut self, name: &str, value: &T) {
        self.put(name);
        self.put(":");
        value.show(self);
    }

    /// The one value of a variant.
    pub fn variant<T: Show>(&mut self, name: &str, value: &T) {
        self.put(name);
        self.put("(");
        value.show(self);
        self.put(")");
    }

    pub fn items<T: Show>(&mut self, items: &[T]) {
        self.put("[");
        for (i, item) in items.iter().enumerate() {
            if i > 0 {
                self.put(",");
            }
            item.show(self);
        }
        self.put("]");
    }
}

impl<T: Show> Show for List<T> {
    fn show(&self, page: &mut Page) {
        page.items(self.as_slice());
    }
}

impl<T: Show> Show for Option<T> {
    fn show(&self, page: &mut Page) {
        match self {
            Some(value) => value.show(page),
            None => page.put("-"),
        }
    }
}

impl<T: Show> Show for Boxed<T> {
    fn show(&self, page: &mut Page) {
        self.get().show(page);
    }
}

impl<A: Show, B: Show> Show for (A, B) {
    fn show(&self, page: &mut Page) {
        page.put("(");
        self.0.show(page);
        page.put(",");
        self.1.show(page);
        page.put(")");
    }
}

// The outbox of a link.
ghost use Rattle.std.specs.Prelude.{◌≡◌, ◌≤◌, [], length};
ghost use Rattle.session_core.specs.Outboxes.{head, wrote, left_of, IsLeft, NoneEmpty};

use bytes::Bytes;
use mesh_base::list::List;
use std::alloc::Global;
use std::collections::VecDeque;
use std::marker::Model;

// Removes the next item and returns it, or no bytes if there is none.
fn pop(items: &mut VecDeque<Bytes>) -> Bytes
    ensures left { NoneEmpty items.old.items → left_of result items.new.items ≡ items.old.items }
    ensures is { NoneEmpty items.old.items → IsLeft result items.new.items }
{
    match items.pop_front() {
        Some(item) => item,
        None => Bytes::new(),
    }
}

/// Items that are to be written, the first of which may be written in part.
#[derive(Drop)]
pub struct Outbox {
    // The rest of the first item; no bytes if there is none.
    first: Bytes,
    rest: VecDeque<Bytes>,
}

impl Model for Outbox {
    ghost use Rattle.std.specs.Prelude.{ℕ, List};
    ghost use Rattle.session_core.specs.Outboxes.{left_of, IsLeft};

    ghost Value = { List (List ℕ) };

    ghost view = { λ outbox. left_of outbox.first outbox.rest.items };

    ghost invariant = { λ outbox. IsLeft outbox.first outbox.rest.items };
}

impl Outbox {
    /// Creates an empty outbox.
    pub fn new(alloc: Global) -> Outbox
        ensures { result ≡ [] }
    {
        Outbox {
            first: Bytes::new(),
            rest: VecDeque::new(alloc),
        }
    }

    /// Replaces the contents by these items.
    pub fn put(&mut self, items: List<Bytes>)
        requires { NoneEmpty items }
        ensures { self.new ≡ items }
    {
        let mut rest = VecDeque::from(items.into_vec());
        let first = pop(&mut rest);
        *self = Outbox { first, rest };
    }

    /// Returns the rest of the first item, which is empty exactly if the outbox is.
    pub fn head(&self) -> &[u8]
        ensures head { result.now ≡ head self.now }
        ensures none { result.now ≡ [] → self.now ≡ [] }
    {
        self.first.as_slice()
    }

    /// Records that this number of bytes of the first item were written.
    pub fn wrote(&mut self, n: usize)
        requires { n ≤ length (head self.old) }
        ensures { self.new ≡ wrote n self.old }
    {
        self.first.advance(n);
        if self.first.is_empty() {
            self.first = pop(&mut self.rest);
        }
    }
}

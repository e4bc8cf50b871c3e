ghost use Rattle.key_streams.specs.Members.{AreCounted};

use crate::members::{add_ids, change, number_of, put, take};
use endpoint_groups::groups::EndpointGroups;
use mesh_base::limits::Limits;
use mesh_base::list::List;
use mesh_base::memory::Memory;
use net_cidr::ip::Ip;
use std::alloc::Global;
use std::collections::BTreeMap;
use view_diff::batch::endpoint_batch;
use view_types::endpoint::{EndpointRow, EndpointView};
use view_types::message::Message;

/// The streams of one key. `F` is the encoding of the messages of a stream.
#[derive(Drop)]
pub struct KeyStreams<F> {
    groups: EndpointGroups<F>,
    /// The group of each id.
    members: BTreeMap<u64, u64>,
    ghost counted: { AreCounted groups.groups.items members },
}

impl<F: Drop> KeyStreams<F> {
    ghost use Rattle.std.specs.Prelude.{◌≡◌, ◌&&◌, ◌||◌, ◌≤◌, ℕ, IfOk, IfSome, None, OnErr, OnOk, Option, Some, false, nat_eq, not, true};
    ghost use Rattle.std.specs.List.{list_any};
    ghost use Rattle.std.specs.Option.{option_copied};
    ghost use Rattle.view_diff.specs.Earlier.{IsByAddress, earlier_rows};
    ghost use Rattle.view_rules.specs.Batch.{endpoint_batch};
    ghost use Rattle.view_rules.specs.Fold.{IsOrderly};
    ghost use Rattle.view_types.specs.declared.endpoint.EndpointView.{EndpointView as TheView};
    ghost use Rattle.key_streams.specs.Streams.{AreRight, HasSame, SetsShown, ShowSame, encoding_for, has_stream, shown_for};

    /// Creates an empty set of streams.
    pub fn new(alloc: Global) -> Result<KeyStreams<F>, Memory>
        ensures none { IfOk result (λ streams. (id : ℕ) → has_stream streams id ≡ false) }
        ensures right { IfOk result (λ streams. (encode : Option TheView → Option F) (now : TheView)
            → AreRight encode now streams) }
    {
        Ok(KeyStreams {
            groups: EndpointGroups::new(alloc)?,
            members: BTreeMap::new(alloc),
        })
    }

    /// Whether no id has a stream.
    pub fn is_empty(&self) -> bool
        ensures none { result ≡ true → (id : ℕ) → has_stream self.now id ≡ false }
        ensures some { result ≡ false → (id : ℕ) × (has_stream self.now id ≡ true) }
    {
        self.members.is_empty()
    }

    /// Opens a stream under an id, unless it has one. Its subscriber was shown nothing yet.
    pub fn join(&mut self, id: u64) -> Result<(), Memory>
        ensures open { OnOk result ((n : ℕ)
            → has_stream self.new n ≡ (nat_eq n id || has_stream self.old n)) }
        ensures shown { has_stream self.old id ≡ false
            → OnOk result ((now : TheView) → SetsShown now id None self.old self.new) }
        ensures again { has_stream self.old id ≡ true
            → (now : TheView) → ShowSame now self.old self.new }
        ensures right { (encode : Option TheView → Option F) (now : TheView)
            → AreRight encode now self.old → AreRight encode now self.new }
        ensures err_open { OnErr result (HasSame self.old self.new) }
        ensures err_shown { OnErr result ((now : TheView) → ShowSame now self.old self.new) }
    {
        if number_of(&self.members, id).is_some() {
            return Ok(());
        }
        self.join_new(id)
    }

    // Opens a stream under an id that has none.
    fn join_new(&mut self, id: u64) -> Result<(), Memory>
        requires free { has_stream self.old id ≡ false }
        ensures open { OnOk result ((n : ℕ)
            → has_stream self.new n ≡ (nat_eq n id || has_stream self.old n)) }
        ensures shown { OnOk result ((now : TheView) → SetsShown now id None self.old self.new) }
        ensures right { (encode : Option TheView → Option F) (now : TheView)
            → AreRight encode now self.old → AreRight encode now self.new }
        ensures err_open { OnErr result (HasSame self.old self.new) }
        ensures err_shown { OnErr result ((now : TheView) → ShowSame now self.old self.new) }
    {
        let number = self.groups.join()?;
        let Ok(()) = put(&mut self.members, id, number) else {
            self.groups.leave(number);
            return Err(Memory);
        };
        Ok(())
    }

    /// Closes the stream of an id, if it has one. It does not allocate.
    pub fn leave(&mut self, id: u64)
        ensures open { (n : ℕ)
            → has_stream self.new n ≡ (not (nat_eq n id) && has_stream self.old n) }
        ensures shown { (now : TheView) → SetsShown now id None self.old self.new }
        ensures right { (encode : Option TheView → Option F) (now : TheView)
            → AreRight encode now self.old → AreRight encode now self.new }
    {
        let Some(number) = take(&mut self.members, id) else {
            return;
        };
        self.groups.leave(number);
    }

    /// Records a change of the rows at these addresses, each given with the row that was there
    /// before, or that the Service was created or deleted. The kept encodings are dropped. After
    /// `Memory` nothing is known of what was shown.
    pub fn change(&mut self, before: &[(Ip, u16, Option<EndpointRow>)]) -> Result<(), Memory>
        requires { IsByAddress before.now }
        ensures open { HasSame self.old self.new }
        ensures shown { OnOk result
            ((now was : TheView) → earlier_rows before.now now.rows ≡ was.rows
            → (id : ℕ) → shown_for self.new id now ≡ shown_for self.old id was) }
        ensures right { OnOk result ((encode : Option TheView → Option F) (now : TheView)
            → AreRight encode now self.new) }
    {
        self.groups.change(before)
    }

    /// Returns the messages that bring the subscriber of an id from what it was last shown to the
    /// current endpoints. A subscriber without a stream was shown nothing.
    pub fn messages(
        &self,
        alloc: Global,
        id: u64,
        now: &EndpointView,
        limits: &Limits,
    ) -> Result<List<Message>, Memory>
        requires limit { 1 ≤ limits.now.frame_addrs }
        requires now { IsOrderly now.now }
        ensures { IfOk result (λ messages. messages
            ≡ endpoint_batch (shown_for self.now id now.now) now.now limits.now) }
    {
        match number_of(&self.members, id) {
            Some(number) => self.groups.messages(number, now, limits),
            None => endpoint_batch(alloc, None, now, limits),
        }
    }

    /// Returns the kept encoding of a stream's messages, if one was kept for a stream that was last
    /// shown the same.
    pub fn encoding(&self, id: u64) -> Option<&F>
        ensures kept { option_copied result ≡ encoding_for self.now id }
        ensures right { (encode : Option TheView → Option F) (now : TheView)
            → AreRight encode now self.now
            → IfSome result (λ encoding. encode (shown_for self.now id now) ≡ Some encoding.now) }
    {
        match number_of(&self.members, id) {
            Some(number) => self.groups.encoding(number),
            None => None,
        }
    }

    /// Keeps the encoding of a stream's messages until the rows change, for all streams that were
    /// last shown the same.
    pub fn keep(&mut self, id: u64, encoding: F)
        ensures kept { has_stream self.old id ≡ true → encoding_for self.new id ≡ Some encoding }
        ensures open { HasSame self.old self.new }
        ensures shown { (now : TheView) → ShowSame now self.old self.new }
        ensures right { (encode : Option TheView → Option F) (now : TheView)
            → encode (shown_for self.old id now) ≡ Some encoding
            → AreRight encode now self.old → AreRight encode now self.new }
    {
        let Some(number) = number_of(&self.members, id) else {
            return;
        };
        self.groups.keep(number, encoding);
    }

    /// Records that the subscriber of an id, if it has a stream, was shown the current endpoints.
    pub fn catch_up(&mut self, id: u64, exists: bool) -> Result<(), Memory>
        ensures open { HasSame self.old self.new }
        ensures shown { has_stream self.old id ≡ true → OnOk result ((now : TheView) → IsOrderly now
            → now.exists ≡ exists → SetsShown now id (Some now) self.old self.new) }
        ensures none { has_stream self.old id ≡ false
            → (now : TheView) → ShowSame now self.old self.new }
        ensures right { (encode : Option TheView → Option F) (now : TheView)
            → AreRight encode now self.old → AreRight encode now self.new }
        ensures err { OnErr result ((now : TheView) → ShowSame now self.old self.new) }
    {
        let Some(number) = number_of(&self.members, id) else {
            return Ok(());
        };
        let to = self.groups.catch_up(number, exists)?;
        change(&mut self.members, id, to);
        Ok(())
    }

    /// Appends the ids of all streams to the list.
    pub fn add_ids(&self, ids: &mut List<u64>) -> Result<(), Memory>
        ensures { OnOk result ((n : ℕ) → list_any (nat_eq n) ids.new
            ≡ (list_any (nat_eq n) ids.old || has_stream self.now n)) }
    {
        add_ids(&self.members, ids)
    }
}

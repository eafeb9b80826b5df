//! The rooms.

ghost use Rattle.std.specs.Prelude.{◌≡◌, ◌<◌, ◌≤◌, ℕ, length, None, Some, OnOk, OnErr, option_map, slice_index_or};
ghost use Rattle.std.specs.Option.{option_and_then};
ghost use Rattle.slab.specs.Slab.{HasRoomFor, get};
ghost use Rattle.rooms.specs.declared.member.Member.{Member};
ghost use Rattle.rooms.specs.Rooms.{Membership, AreKeyed, AreRoomier, AreSame, HasRoom, HaveRoom, IsPosted, Joins, Moves, Pops, Renews, Stay, first_posted, member, posted, posted_in, seen_all};

use crate::member::Member;
use pending_queue::Queue;
use slab::Slab;
use std::alloc::{AllocError, Global};
use std::marker::Model;

/// The clients that are in a document's room, each with the source that it joined under and an
/// outbox: the places of the journal, in order, that it is still to be told of. A client is in one
/// room at most. Contracts see a list by the numbers of clients, none where a client is in no room.
///
/// An outbox holds places, not copies, so that what is committed costs each client a number.
#[derive(Drop)]
pub struct Rooms {
    members: Slab<Member>,
    keys: Vec<Option<usize>>,
    alloc: Global,
}

impl Model for Rooms {
    ghost use Rattle.std.specs.Coded.{coded_list, coded_option};
    ghost use Rattle.rooms.specs.Rooms.{Roomed, AreKeyed, membership_code, seen_all};

    ghost Value = { Roomed };

    ghost coded = { coded_list (coded_option membership_code) };

    ghost view = { λ r. seen_all r.keys.items r.members };

    ghost invariant = { λ r. AreKeyed r.keys.items r.members };
}

impl Rooms {
    /// Rooms without clients. Takes no memory.
    pub fn new(alloc: Global) -> Rooms
        ensures { (client : ℕ) → member client result ≡ None }
    {
        Rooms {
            members: Slab::new(alloc),
            keys: Vec::new(alloc),
            alloc,
        }
    }

    /// The source under which a client joined, or `None` where it is in no room.
    pub fn source(&self, client: u32) -> Option<u64>
        ensures { result ≡ option_map (λ (m : Membership). m.source) (member client self.now) }
    {
        let key = key_of(&self.keys, client)?;
        Some(self.members.get(key)?.source)
    }

    /// The first place in a client's outbox, or `None` where it is empty or the client is in no
    /// room.
    pub fn next(&self, client: u32) -> Option<u64>
        ensures { result ≡ option_and_then first_posted (member client self.now) }
    {
        let key = key_of(&self.keys, client)?;
        self.members.get(key)?.outbox.front().copied()
    }

    /// Puts a client into a document's room, under a source, with an empty outbox. One that is in a
    /// room leaves it. The only error is want of memory, and all are where they were then.
    pub fn join(&mut self, client: u32, doc: u32, source: u64) -> Result<(), AllocError>
        ensures joined { OnOk result (Joins client doc source 0 self.old self.new) }
        ensures kept { OnErr result (Stay self.old self.new) }
    {
        self.join_with_room(client, doc, source, 0)
    }

    /// [`Rooms::join`] with an outbox that has room for `room` places.
    pub fn join_with_room(
        &mut self,
        client: u32,
        doc: u32,
        source: u64,
        room: u64,
    ) -> Result<(), AllocError>
        ensures joined { OnOk result (Joins client doc source room self.old self.new) }
        ensures kept { OnErr result (Stay self.old self.new) }
    {
        let mut outbox = Queue::new(self.alloc);
        outbox.reserve_many(room as usize)?;
        self.members.reserve(1)?;
        reserve_key(&mut self.keys, client)?;
        vacate(&mut self.keys, &mut self.members, client);
        let member = Member {
            client,
            doc,
            source,
            outbox,
        };
        let key = self.members.insert_reserved(member);
        self.keys[client as usize] = Some(key);
        Ok(())
    }

    /// Puts a client that is in a room under another source, with an empty outbox that has no less
    /// room: it stays in the same room. Nothing where it is in none. Takes no memory.
    pub fn renew(&mut self, client: u32, source: u64)
        ensures { Renews client source self.old self.new }
    {
        let Some(key) = key_of(&self.keys, client) else {
            return;
        };
        if let Some(member) = self.members.get_mut(key) {
            member.renew(source);
        }
    }

    /// Takes a client out of its room, with its outbox, where it is in one.
    pub fn leave(&mut self, client: u32)
        ensures { Moves client None self.old self.new }
    {
        vacate(&mut self.keys, &mut self.members, client);
    }

    /// Makes room for `n` more places in the outbox of each client in a document's room. The only
    /// error is want of memory.
    pub fn reserve(&mut self, doc: u32, n: u64) -> Result<(), AllocError>
        ensures same { (client : ℕ) → AreRoomier (member client self.old) (member client self.new) }
        ensures room { OnOk result (HaveRoom doc n self.new) }
    {
        reserve_all(&mut self.members, doc, n)
    }

    /// Makes room for `n` more places in a client's outbox, where it is in a room. The only error is
    /// want of memory.
    pub fn reserve_one(&mut self, client: u32, n: u64) -> Result<(), AllocError>
        ensures same { (other : ℕ) → AreRoomier (member other self.old) (member other self.new) }
        ensures room { OnOk result (HasRoom n (member client self.new)) }
    {
        let Some(key) = key_of(&self.keys, client) else {
            return Ok(());
        };
        match self.members.get_mut(key) {
            Some(member) => member.outbox.reserve_many(n as usize),
            None => Ok(()),
        }
    }

    /// Puts a place of the journal behind the others in the outbox of each client in a document's
    /// room. Takes no memory: the room was made by [`Rooms::reserve`].
    pub fn post(&mut self, doc: u32, at: u64)
        requires { HaveRoom doc 1 self.old }
        ensures { (client : ℕ) → member client self.new ≡ option_map (posted_in doc at) (member client self.old) }
    {
        post_all(&mut self.members, doc, at);
    }

    /// Puts a place of the journal behind the others in a client's outbox, where it is in a room.
    /// Takes no memory: the room was made by [`Rooms::reserve_one`].
    pub fn post_one(&mut self, client: u32, at: u64)
        requires { HasRoom 1 (member client self.old) }
        ensures { Moves client (option_map (posted at) (member client self.old)) self.old self.new }
    {
        let Some(key) = key_of(&self.keys, client) else {
            return;
        };
        if let Some(member) = self.members.get_mut(key) {
            member.outbox.push(at);
        }
    }

    /// Takes the first place out of a client's outbox, or answers `None` where it is empty or the
    /// client is in no room.
    pub fn pop(&mut self, client: u32) -> Option<u64>
        ensures first { result ≡ option_and_then first_posted (member client self.old) }
        ensures rest { Pops client self.old self.new }
    {
        let key = key_of(&self.keys, client)?;
        self.members.get_mut(key)?.outbox.pop()
    }
}

fn key_of(keys: &[Option<usize>], client: u32) -> Option<usize>
    ensures { result ≡ slice_index_or keys.now client None }
{
    keys.get(client as usize).copied().flatten()
}

// Takes a client's member out.
fn vacate(keys: &mut Vec<Option<usize>>, members: &mut Slab<Member>, client: u32)
    requires { AreKeyed keys.old.items members.old }
    ensures keyed { AreKeyed keys.new.items members.new }
    ensures moves { Moves client None (seen_all keys.old.items members.old) (seen_all keys.new.items members.new) }
    ensures gone { slice_index_or keys.new.items client None ≡ None }
    ensures len { length keys.new.items ≡ length keys.old.items }
    ensures room { HasRoomFor members.old 1 → HasRoomFor members.new 1 }
{
    if let Some(key) = key_of(keys, client) {
        members.try_remove(key);
        keys[client as usize] = None;
    }
}

fn reserve_key(keys: &mut Vec<Option<usize>>, client: u32) -> Result<(), AllocError>
    ensures same { (other : ℕ) → slice_index_or keys.new.items other None ≡ slice_index_or keys.old.items other None }
    ensures there { OnOk result (client < length keys.new.items) }
{
    let len = client as usize + 1;
    if keys.len() < len {
        keys.resize(len, None)?;
    }
    Ok(())
}

fn reserve_all(members: &mut Slab<Member>, doc: u32, n: u64) -> Result<(), AllocError>
    ensures same { (key : ℕ) → AreSame (get members.old key) (get members.new key) }
    ensures room { OnOk result ((key : ℕ) (m : Member) → get members.new key ≡ Some m → m.doc ≡ doc → n ≤ m.outbox.spare) }
{
    for key in 0..members.capacity() {
        if let Some(member) = members.get_mut(key) {
            member.reserve_in(doc, n)?;
        }
    }
    Ok(())
}

fn post_all(members: &mut Slab<Member>, doc: u32, at: u64)
    requires { (key : ℕ) (m : Member) → get members.old key ≡ Some m → m.doc ≡ doc → 1 ≤ m.outbox.spare }
    ensures { (key : ℕ) → IsPosted doc at (get members.old key) (get members.new key) }
{
    for key in 0..members.capacity() {
        if let Some(member) = members.get_mut(key) {
            member.post_in(doc, at);
        }
    }
}

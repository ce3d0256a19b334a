// The links of a store, in memory that is taken beforehand.
ghost use Rattle.std.specs.Prelude.{◌≡◌, ◌+◌, ◌-◌, ◌≤◌, ◌<◌, [], ◌∷◌, ◌++◌, length, drop, slice_set, IfOk, OnOk, OnErr};
ghost use Rattle.store_directory.specs.Room.{Room};

use record_view::Link;
use std::alloc::{AllocError, Global};
use std::marker::Model;

/// Links in order, and room for so many.
#[derive(Drop)]
pub(crate) struct Links {
    items: Vec<Link>,
}

impl Model for Links {
    ghost use Rattle.std.specs.Prelude.{vec_capacity, vec_len, ◌≤◌};
    ghost use Rattle.store_directory.specs.Room.{Room};

    ghost Value = { Room };

    ghost view = { λ links. record { items = links.items.items; room = vec_capacity links.items } };

    ghost invariant = { λ links. vec_len links.items ≤ vec_capacity links.items };
}

impl Links {
    /// No link, and room for so many.
    pub(crate) fn with_room(alloc: Global, room: usize) -> Result<Links, AllocError>
        ensures { IfOk result (λ links. links ≡ record { items = []; room = room }) }
    {
        let items = Vec::with_capacity(alloc, room)?;
        Ok(Links { items })
    }

    pub(crate) fn list(&self) -> &[Link]
        ensures { result.now ≡ self.now.items }
    {
        self.items.as_slice()
    }

    /// Puts a link behind the others, for which there is room.
    pub(crate) fn push(&mut self, link: Link)
        requires { length self.old.items < self.old.room }
        ensures items { self.new.items ≡ self.old.items ++ link ∷ [] }
        ensures kept { self.old.room ≤ self.new.room }
    {
        self.items.push(link).unwrap();
    }

    /// Takes out so many links at the front.
    pub(crate) fn drop_front(&mut self, count: usize)
        requires { count ≤ length self.old.items }
        ensures items { self.new.items ≡ drop count self.old.items }
        ensures kept { self.old.room ≤ self.new.room }
    {
        self.items.drain(..count);
    }

    /// Puts a link in the place of the last one.
    pub(crate) fn replace_last(&mut self, link: Link)
        requires { 0 < length self.old.items }
        ensures items { self.new.items ≡ slice_set self.old.items (length self.old.items - 1) link }
        ensures kept { self.old.room ≤ self.new.room }
    {
        let last = self.items.len() - 1;
        self.items[last] = link;
    }

    /// Takes memory for so many links, if there is not room for them yet.
    pub(crate) fn reserve(&mut self, room: usize) -> Result<(), AllocError>
        ensures items { self.new.items ≡ self.old.items }
        ensures room { OnOk result (room ≤ self.new.room) }
        ensures kept { self.old.room ≤ self.new.room }
        ensures err { OnErr result (self.new ≡ self.old) }
    {
        if room <= self.items.capacity() {
            return Ok(());
        }
        self.items.reserve_exact(room - self.items.len())
    }
}

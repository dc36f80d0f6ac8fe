// The slots of a chain, with where its orders and its free slots begin, and the steps of their changes.
ghost use Rattle.std.specs.Prelude.{◌≡◌, ◌+◌, ◌-◌, ◌<◌, ◌≢◌, slice_set};
ghost use Rattle.chain.specs.Chains.{linked_behind, linked_first, renewed_slot, room, unlinked_behind, unlinked_first};
ghost use Rattle.chain.specs.Trails.{linked, next, order_in};

use crate::link::Link;
use orders::order::Order;
use orders::terms::Terms;
use shelves::slots::renew;

// A struct of its own, with no ghost field: between two steps the slots are not sound.
#[derive(Drop)]
pub(crate) struct Links<'a> {
    pub(crate) at: &'a mut [Link],
    // How many slots hold orders.
    pub(crate) used: usize,
    // The slot of the first order, if there is one.
    pub(crate) head: usize,
    // The first free slot, if there is one.
    pub(crate) free: usize,
}

impl Links<'_> {
    // Takes the first free slot.
    fn take_free(&mut self) -> usize
        requires { (self.old.used < room self.old) × (self.old.free < room self.old) }
        ensures slot { result ≡ self.old.free }
        ensures slots { self.new.at.now ≡ self.old.at.now }
        ensures used { self.new.used ≡ self.old.used + 1 }
        ensures head { self.new.head ≡ self.old.head }
        ensures free { self.new.free ≡ next self.old.at.now self.old.free }
    {
        let slot = self.free;
        self.free = self.at[slot].next;
        self.used += 1;
        slot
    }

    // Takes a free slot for `new`, and links it in before the first order.
    pub(crate) fn link_first(&mut self, new: Order)
        requires { (self.old.used < room self.old) × (self.old.free < room self.old) }
        ensures slots { self.new.at.now ≡ linked_first self.old new }
        ensures used { self.new.used ≡ self.old.used + 1 }
        ensures head { self.new.head ≡ self.old.free }
        ensures free { self.new.free ≡ next self.old.at.now self.old.free }
    {
        let slot = self.take_free();
        self.at[slot] = Link {
            order: new,
            next: self.head,
        };
        self.head = slot;
    }

    // Takes a free slot for `new`, and links it in behind the slot `prev`.
    pub(crate) fn link_behind(&mut self, prev: usize, new: Order)
        requires { (self.old.used < room self.old) × (self.old.free < room self.old) × (prev < room self.old) }
        ensures slots { self.new.at.now ≡ linked_behind self.old prev new }
        ensures used { self.new.used ≡ self.old.used + 1 }
        ensures head { self.new.head ≡ self.old.head }
        ensures free { self.new.free ≡ next self.old.at.now self.old.free }
    {
        let slot = self.take_free();
        let next = self.at[prev].next;
        self.at[prev].next = slot;
        self.at[slot] = Link { order: new, next };
    }

    // Puts a slot before the free ones.
    fn give_free(&mut self, slot: usize)
        requires { (0 < self.old.used) × (slot < room self.old) }
        ensures slots { self.new.at.now ≡ slice_set self.old.at.now slot (linked (order_in self.old.at.now slot) self.old.free) }
        ensures used { self.new.used ≡ self.old.used - 1 }
        ensures head { self.new.head ≡ self.old.head }
        ensures free { self.new.free ≡ slot }
    {
        self.at[slot].next = self.free;
        self.free = slot;
        self.used -= 1;
    }

    // Frees the slot of the first order.
    pub(crate) fn unlink_first(&mut self)
        requires { (0 < self.old.used) × (self.old.head < room self.old) }
        ensures slots { self.new.at.now ≡ unlinked_first self.old }
        ensures used { self.new.used ≡ self.old.used - 1 }
        ensures head { self.new.head ≡ next self.old.at.now self.old.head }
        ensures free { self.new.free ≡ self.old.head }
    {
        let slot = self.head;
        self.head = self.at[slot].next;
        self.give_free(slot);
    }

    // Frees the slot behind the slot `prev`.
    pub(crate) fn unlink_behind(&mut self, prev: usize)
        requires { (0 < self.old.used) × (prev < room self.old) × (next self.old.at.now prev < room self.old) × (prev ≢ next self.old.at.now prev) }
        ensures slots { self.new.at.now ≡ unlinked_behind self.old prev }
        ensures used { self.new.used ≡ self.old.used - 1 }
        ensures head { self.new.head ≡ self.old.head }
        ensures free { self.new.free ≡ next self.old.at.now prev }
    {
        let slot = self.at[prev].next;
        self.at[prev].next = self.at[slot].next;
        self.give_free(slot);
    }

    // Gives the order in the slot `slot` a new balance and new terms.
    pub(crate) fn renew_slot(&mut self, slot: usize, balance: u32, terms: Terms)
        requires { slot < room self.old }
        ensures slots { self.new.at.now ≡ renewed_slot self.old slot balance terms }
        ensures used { self.new.used ≡ self.old.used }
        ensures head { self.new.head ≡ self.old.head }
        ensures free { self.new.free ≡ self.old.free }
    {
        renew(&mut self.at[slot].order, balance, terms);
    }
}

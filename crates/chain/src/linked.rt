// Linked slots: those of the orders are linked in the order of the places, the free ones in any
// order, so no order is moved.
#![tactic(auto, using(crate::proofs::Places::places))]

ghost use Rattle.std.specs.Prelude.{◌≡◌, ◌<◌, ◌≤◌};
ghost use Rattle.chain.specs.Chains.{Sound, ahead, held, room, slot};

use crate::link::{Link, link_up};
use crate::links::Links;
use crate::trail::Trail;
use orders::order::Order;
use orders::terms::Terms;
use shelves::rank::Rank;
use shelves::shelf::PutRefusal;
use shelves::slots::{Slots, Vacant};
use shelves::walk;

// Numbers of slots and no boxes, since a shelf has no heap: its slots are the caller's.
#[derive(Drop)]
pub struct Linked<'a> {
    links: Links<'a>,
    ghost fits: { links.used ≤ room links },
    // No slot is lost and none is used twice.
    ghost sound: { Sound links },
}

impl Linked<'_> {
    // A walk along the orders.
    fn walk(&self) -> Trail<'_>
        ensures { ahead result ≡ held self.now.links }
    {
        Trail {
            links: self.links.at,
            left: self.links.used,
            at: self.links.head,
        }
    }

    // The slot of the order at `place`.
    fn slot(&self, place: usize) -> usize
        requires { place < self.now.links.used }
        ensures slot { result ≡ slot self.now.links place }
        ensures within { result < room self.now.links }
    {
        // No `fold`: tried, and its closure could not show that each slot is inside.
        let mut at = self.links.head;
        for _ in 0..place {
            at = self.links.at[at].next;
        }
        at
    }
}

impl<'a> Vacant<'a, Link> for Linked<'a> {
    fn vacant(at: &'a mut [Link]) -> Linked<'a> {
        link_up(at);
        Linked {
            links: Links {
                at,
                used: 0,
                head: 0,
                free: 0,
            },
        }
    }
}

impl Slots for Linked<'_> {
    ghost use Rattle.chain.specs.Trails.{along_fits};

    ghost orders = { λ s. held s.links };

    ghost room = { λ s. room s.links };

    ghost fits = { λ s. along_fits s.links.at.now s.links.used s.links.head s.fits };

    fn count(&self) -> usize {
        self.links.used
    }

    fn room(&self) -> usize {
        self.links.at.len()
    }

    fn get(&self, place: usize) -> Option<Order> {
        if place < self.count() {
            Some(self.links.at[self.slot(place)].order)
        } else {
            None
        }
    }

    fn find(&self, serial: u64) -> Option<usize> {
        walk::find(&mut self.walk(), serial)
    }

    fn place<R: Rank>(&self, new: &Order) -> usize {
        walk::place::<R, Trail>(&mut self.walk(), new)
    }

    fn insert(&mut self, place: usize, new: Order) -> Result<(), PutRefusal> {
        if self.count() >= self.room() {
            return Err(PutRefusal::Full);
        }
        let place = place.min(self.count());
        if place == 0 {
            self.links.link_first(new);
        } else {
            let prev = self.slot(place - 1);
            self.links.link_behind(prev, new);
        }
        Ok(())
    }

    fn remove(&mut self, place: usize) -> Option<Order> {
        let removed = self.get(place)?;
        if place == 0 {
            self.links.unlink_first();
        } else {
            let prev = self.slot(place - 1);
            self.links.unlink_behind(prev);
        }
        Some(removed)
    }

    fn write(&mut self, place: usize, balance: u32, terms: Terms) -> Option<Order> {
        if place >= self.count() {
            return None;
        }
        let slot = self.slot(place);
        let written = self.links.at[slot].order;
        self.links.renew_slot(slot, balance, terms);
        Some(written)
    }
}

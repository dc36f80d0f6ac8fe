// A shelf over any arrangement of slots: it keeps the orders in the order of a rank.
ghost use Rattle.std.specs.Prelude.{◌≡◌, true, [], length};
ghost use Rattle.shelves.specs.Lists.{distinct, place_in};
ghost use Rattle.shelves.specs.Puts.{put_answer};

use crate::rank::Rank;
use crate::shelf::{PutRefusal, Shelf, check_put};
use crate::slots::{Slots, Vacant};
use orders::order::Order;
use orders::terms::Terms;
use std::marker::PhantomData;

#[derive(Drop)]
pub struct Ranked<S: Slots, R: Rank> {
    slots: S,
    rank: PhantomData<R>,
    ghost apart: { distinct (S.orders slots) ≡ true },
}

impl<S: Slots, R: Rank> Ranked<S, R> {
    // An empty shelf with as many places as there are slots, whatever these hold.
    pub fn new<'a, T>(at: &'a mut [T]) -> Ranked<S, R>
    where
        S: Vacant<'a, T>,
        ensures orders { S.orders result.slots ≡ [] }
        ensures room { S.room result.slots ≡ length at.old }
    {
        Ranked {
            slots: S::vacant(at),
            rank: PhantomData,
        }
    }

    // Whether an order with this serial can be put.
    fn check(&self, serial: u64) -> Result<(), PutRefusal>
        ensures { result ≡ put_answer (S.room self.now.slots) serial (S.orders self.now.slots) }
    {
        check_put(self.count(), self.places(), self.find(serial).is_some())
    }

    // The place of a new order: behind all in front that come before it.
    pub fn place(&self, new: &Order) -> usize
        ensures { result ≡ place_in R.Rank.before new.now (S.orders self.now.slots) }
    {
        self.slots.place::<R>(new)
    }
}

impl<S: Slots, R: Rank> Shelf<R> for Ranked<S, R> {
    ghost orders = { λ s. S.orders s.slots };

    ghost room = { λ s. S.room s.slots };

    ghost apart = { λ s. s.apart };

    ghost within = { λ s. S.fits s.slots };

    fn count(&self) -> usize {
        self.slots.count()
    }

    fn places(&self) -> usize {
        self.slots.room()
    }

    fn show(&self, place: usize) -> Option<Order> {
        self.slots.get(place)
    }

    fn find(&self, serial: u64) -> Option<usize> {
        self.slots.find(serial)
    }

    fn put(&mut self, new: Order) -> Result<(), PutRefusal> {
        self.check(new.serial)?;
        let place = self.place(&new);
        // It answers Ok, since the check found room.
        self.slots.insert(place, new)
    }

    #[tactic(auto, using(crate::proofs::Keeping::apart_kept))]
    fn take(&mut self, place: usize) -> Option<Order> {
        self.slots.remove(place)
    }

    #[tactic(auto, using(crate::proofs::Keeping::apart_kept))]
    fn write(&mut self, place: usize, balance: u32, terms: Terms) -> Option<Order> {
        self.slots.write(place, balance, terms)
    }
}

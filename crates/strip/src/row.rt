// A ring over lent memory: the oldest element at one end, the newest at the other.
#![tactic(auto, using(crate::proofs::Rings::ringed_none, crate::proofs::Rings::count_ringed))]

ghost use Rattle.std.specs.Prelude.{◌≡◌, ◌+◌, ◌≤◌, [], length};
ghost use Rattle.strip.specs.Ring.{Ringed, held_of};
ghost use Rattle.strip.specs.Rows.{Held, as_row};

use std::marker::Model;

mod calls;

// `count` elements of the memory from `head` on, going round its end.
#[derive(Drop)]
pub struct Strip<'a, T: Copy> {
    memory: &'a mut [T],
    head: usize,
    count: usize,
}

impl<'a, T: Copy> Model for Strip<'a, T> {
    ghost Value = { Held T };

    ghost view = { λ s. held_of s.memory.now s.head s.count };

    ghost invariant = { λ s. Ringed s.memory.now s.head s.count };
}

impl<'a, T: Copy> Strip<'a, T> {
    // An empty strip, with as many places as the memory has.
    pub fn new(memory: &'a mut [T]) -> Strip<'a, T>
        ensures empty { result.items ≡ [] }
        ensures places { (as_row result).places ≡ length memory.old }
    {
        Strip {
            memory,
            head: 0,
            count: 0,
        }
    }

    pub fn count(&self) -> usize
        ensures { result ≡ length self.now.items }
    {
        self.count
    }

    pub fn places(&self) -> usize
        ensures { result ≡ (as_row self.now).places }
    {
        self.memory.len()
    }

    // How many places are free: the items never outnumber the places.
    pub fn free(&self) -> usize
        ensures { result + length self.now.items ≡ (as_row self.now).places }
    {
        self.places() - self.count
    }
}

// Why a strip takes no more.
#[derive(Clone, Copy, PartialEq, Eq, Debug)]
pub enum Full {
    NoPlace,
}

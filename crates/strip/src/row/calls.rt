// Putting, taking and reading.
#![tactic(auto, using(crate::proofs::Rings::ringed_none, crate::proofs::Rings::count_ringed, crate::proofs::Rings::row_item, crate::proofs::Rings::held_put, crate::proofs::Rings::held_oldest, crate::proofs::Rings::held_newest))]

ghost use Rattle.std.specs.Prelude.{◌<◌, ◌≤◌};
ghost use Rattle.strip.specs.Calls.{Put, Read, TakeNewest, TakeOldest};
ghost use Rattle.strip.specs.Ring.{Spot};
ghost use Rattle.strip.specs.Rows.{as_row};

use crate::row::{Full, Strip};

// The index `k` places on from `head` in a ring of `n` places.
fn spot(n: usize, head: usize, k: usize) -> usize
    requires { (head ≤ n) × (k < n) }
    ensures { Spot n head k result }
{
    let left = n - head;
    if k < left { head + k } else { k - left }
}

impl<'a, T: Copy> Strip<'a, T> {
    // Puts one more at the new end, where a place is free.
    pub fn put(&mut self, x: T) -> Result<(), Full>
        ensures { Put (as_row self.old) x result (as_row self.new) }
    {
        if self.count >= self.memory.len() {
            return Err(Full::NoPlace);
        }
        let end = spot(self.memory.len(), self.head, self.count);
        self.memory[end] = x;
        self.count += 1;
        Ok(())
    }

    pub fn take_oldest(&mut self) -> Option<T>
        ensures { TakeOldest (as_row self.old) result (as_row self.new) }
    {
        if self.count == 0 {
            return None;
        }
        let oldest = spot(self.memory.len(), self.head, 0);
        let x = self.memory[oldest];
        self.head = oldest + 1;
        self.count -= 1;
        Some(x)
    }

    pub fn take_newest(&mut self) -> Option<T>
        ensures { TakeNewest (as_row self.old) result (as_row self.new) }
    {
        if self.count == 0 {
            return None;
        }
        let newest = spot(self.memory.len(), self.head, self.count - 1);
        let x = self.memory[newest];
        self.count -= 1;
        Some(x)
    }

    // The item with the number `k`, 0 the oldest; it stays.
    pub fn read(&self, k: usize) -> Option<T>
        ensures { Read (as_row self.now) k result }
    {
        if k >= self.count {
            return None;
        }
        let at = spot(self.memory.len(), self.head, k);
        Some(self.memory[at])
    }
}

// A line on a strip of trainee numbers: it joins at the new end, and takes at an end of its own.
#![tactic(auto, using(crate::proofs::Ends::joins_end))]

ghost use Rattle.line.specs.Calls.{Taken, at_end};
ghost use Rattle.std.specs.Prelude.{◌≡◌, ℕ, ◌+◌, List, length};
ghost use Rattle.strip.specs.Rows.{as_row};

use crate::line::Line;
use std::marker::PhantomData;
use strip::row::{Full, Strip};

// The end of a strip at which a line takes.
pub trait End {
    ghost takes: { List ℕ → ℕ → List ℕ → Type 0 };

    fn take<'a>(row: &mut Strip<'a, u16>) -> Option<u16>
        ensures { Taken takes (as_row row.old) result (as_row row.new) };
}

// It has its strip on loan: who lent it goes on with it when the line is let go.
#[derive(Drop)]
pub struct Waiting<'a, 'b, E> {
    row: &'b mut Strip<'a, u16>,
    end: PhantomData<E>,
}

impl<'a, 'b, E> Waiting<'a, 'b, E> {
    // Those in the strip wait already.
    pub fn new(row: &'b mut Strip<'a, u16>) -> Self
        ensures { result.row.now ≡ row.old }
    {
        Waiting {
            row,
            end: PhantomData,
        }
    }
}

impl<'a, 'b, E: End> Waiting<'a, 'b, E> {
    // How many places are free: those who wait never outnumber the places.
    pub fn free(&self) -> usize
        ensures { result + length self.now.row.now.items ≡ (as_row self.now.row.now).places }
    {
        self.places() - self.count()
    }
}

impl<'a, 'b, E: End> Line for Waiting<'a, 'b, E> {
    ghost waiting = { λ s. as_row s.row.now };

    ghost joins = { at_end };

    ghost takes = { E.takes };

    fn join(&mut self, trainee: u16) -> Result<(), Full> {
        self.row.put(trainee)
    }

    fn take(&mut self) -> Option<u16> {
        E::take(self.row)
    }

    fn places(&self) -> usize {
        self.row.places()
    }

    fn count(&self) -> usize {
        self.row.count()
    }
}

// A line: trainees who wait for their next offer.
ghost use Rattle.std.specs.Prelude.{◌≡◌, ℕ, List, length};
ghost use Rattle.line.specs.Calls.{Joined, Taken};
ghost use Rattle.strip.specs.Rows.{Row};

use strip::row::Full;

// `waiting` has the places and those who wait, a bag: a list whose order says nothing, in which a trainee may stand more than once. `joins` and `takes` say how lines
// of this kind move besides; one that says no more than the bag gives `any`.
pub trait Line {
    ghost waiting: { Self → Row ℕ };

    ghost joins: { List ℕ → ℕ → List ℕ → Type 0 };

    ghost takes: { List ℕ → ℕ → List ℕ → Type 0 };

    // One more waits, where a place is free.
    fn join(&mut self, trainee: u16) -> Result<(), Full>
        ensures { Joined joins (waiting self.old) trainee result (waiting self.new) };

    // One who waits leaves the line; none exactly when nobody waits.
    fn take(&mut self) -> Option<u16>
        ensures { Taken takes (waiting self.old) result (waiting self.new) };

    fn places(&self) -> usize
        ensures { result ≡ (waiting self.now).places };

    fn count(&self) -> usize
        ensures { result ≡ length (waiting self.now).items };
}

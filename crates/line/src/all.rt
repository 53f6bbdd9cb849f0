// Whole lines at a time, for every kind of line.
#![tactic(auto, using(crate::proofs::Ends::joined_more, crate::proofs::Ends::joined_all))]

ghost use Rattle.std.specs.Prelude.{◌≡◌, ◌+◌, ◌≤◌, [], length, Decides};
ghost use Rattle.line.specs.Calls.{AllJoined};
ghost use Rattle.strip.specs.Rows.{holding};

use crate::line::Line;
use strip::row::Full;

// Takes one after another until nobody waits, and answers how many it took.
pub fn drain<L: Line>(line: &mut L) -> usize
    ensures empty { L.waiting line.new ≡ holding (L.waiting line.old) [] }
    ensures all { result ≡ length (L.waiting line.old).items }
{
    let n = line.count();
    while let Some(_t) = line.take() {}
    n
}

// Whether there are places for n more.
fn has_room<L: Line>(line: &L, n: usize) -> bool
    ensures { Decides result (n + length (L.waiting line.now).items ≤ (L.waiting line.now).places) }
{
    let places = line.places();
    let count = line.count();
    count <= places && n <= places - count
}

// The trainees of a list join in its order, where there are places for all of them; else nobody does.
pub fn join_all<L: Line>(line: &mut L, trainees: &[u16]) -> Result<(), Full>
    ensures { AllJoined L.joins (L.waiting line.old) trainees.now result (L.waiting line.new) }
{
    if !has_room(line, trainees.len()) {
        return Err(Full::NoPlace);
    }
    for t in trainees {
        line.join(*t)?;
    }
    Ok(())
}

// Whether a record keeps the rules, given the entries of those before it.
ghost use Rattle.std.specs.Prelude.{Decides, MatchResult};
ghost use Rattle.rules.specs.Contents.{content_of};
ghost use Rattle.rules.specs.Rules.{Fresh, InRange, IsDredger, IsParent, Printable, Room, RuleNo, Ruled};

use crate::fault::RecordFault;
use crate::table::{
    Group, MOST_BARS, MOST_CONTRACTS, MOST_GROUPS, MOST_RESERVES, MOST_SEATS, MOST_TRAINEES, Rule,
    Tables, parent_of,
};
use format::record::{Kind, Record};

// Whether a table of this kind has an entry left under its most.
fn has_room(next: Kind, past: Tables) -> bool
    ensures { Decides result (Room (content_of past.entry) next) }
{
    match next {
        Kind::Group => past.groups.len() < MOST_GROUPS,
        Kind::Seat => past.seats.len() < MOST_SEATS,
        Kind::Reserve => past.reserves.len() < MOST_RESERVES,
        Kind::Trainee => past.trainees.len() < MOST_TRAINEES,
        Kind::Wish => past.contracts.len() < MOST_CONTRACTS,
        Kind::Bar => past.bars.len() < MOST_BARS,
        Kind::End => true,
    }
}

// Whether each byte of a name is one of 32 to 126.
fn is_printable(name: &[u8]) -> bool
    ensures { Decides result (Printable name.now) }
{
    name.iter().all(|b| (32..=126).contains(b))
}

fn is_dredger(groups: &[Group], number: u8) -> bool
    ensures { Decides result (IsDredger groups.now number) }
{
    groups
        .get(usize::from(number))
        .is_some_and(|group| group.parent.is_none())
}

// Whether a parent is none or an earlier group: here the record's raw byte is judged.
fn is_parent(groups: &[Group], parent: u8) -> bool
    ensures { Decides result (IsParent groups.now parent) }
{
    parent_of(parent).is_none_or(|p| usize::from(p) < groups.len())
}

// Whether each field is in its range.
fn in_range(rec: Record, groups: &[Group]) -> bool
    ensures { Decides result (InRange groups.now rec) }
{
    match rec {
        Record::Group { parent, name, .. } => is_parent(groups, parent) && is_printable(&name),
        Record::Seat { dredger, rule } => is_dredger(groups, dredger)
            && Rule::try_from(rule).is_ok(),
        Record::Reserve { dredger, .. } => is_dredger(groups, dredger),
        Record::Trainee { flag, name, .. } => flag <= 1 && is_printable(&name),
        Record::Wish { group, term, .. } => usize::from(group) < groups.len() && term <= 9,
        Record::Bar { dredger } => is_dredger(groups, dredger),
        Record::End { .. } => true,
    }
}

// Whether the record repeats no lot, wish, bar or reserve.
fn is_fresh(rec: Record, past: Tables) -> bool
    requires { InRange (content_of past).groups rec }
    ensures { Decides result (Fresh (content_of past.entry) rec) }
{
    let trainee = past.trainees.len().saturating_sub(1);
    match rec {
        Record::Reserve { dredger, .. } => past.reserves.iter().all(|e| e.dredger != dredger),
        Record::Trainee { lot, .. } => past.trainees.iter().all(|e| e.lot != lot),
        Record::Wish { group, .. } => {
            let dredger = past.groups[usize::from(group)].dredger;
            !past.contracts.iter().any(|e| usize::from(e.trainee) == trainee
                && e.dredger == dredger)
        }
        Record::Bar { dredger } => past.bars.iter().all(|e| usize::from(e.trainee) != trainee
            || e.dredger != dredger),
        _ => true,
    }
}

// Questions 7, 8 and 9, in this order, of a record at `place`.
pub fn judge(rec: Record, past: Tables, place: usize) -> Result<(), RecordFault>
    ensures { MatchResult result (λ _. Ruled (content_of past.entry) rec) (RuleNo (content_of past.entry) rec place) }
{
    if !has_room(rec.kind(), past) {
        return Err(RecordFault::Full { place });
    }
    if !in_range(rec, past.groups) {
        return Err(RecordFault::Range { place });
    }
    if !is_fresh(rec, past) {
        return Err(RecordFault::Repeat { place });
    }
    Ok(())
}

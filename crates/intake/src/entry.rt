// The entry that a record fills.
ghost use Rattle.std.specs.Prelude.{◌≡◌, ◌<◌, ◌≤◌, length};
ghost use Rattle.format.specs.Layout.{kind};
ghost use Rattle.intake.specs.Rows.{Belongs, entry_of, entry_of_group, entry_of_wish};
ghost use Rattle.rules.specs.Contents.{content_of};
ghost use Rattle.rules.specs.Rules.{InRange, IsParent, Room};

use format::record::Record;
use rules::table::{Barring, Contract, Group, Reservation, Rule, Seat, Tables, Trainee, parent_of};

// An E fills no table; it gives the number of W records.
#[derive(Clone, Copy)]
pub enum Entry {
    Group(Group),
    Seat(Seat),
    Reserve(Reservation),
    Trainee(Trainee),
    Contract(Contract),
    Bar(Barring),
    End(u16),
}

// `parent` is the record's raw byte, of which the entry is made. Any tables may be lent for reading; that these are within a deck's bounds is therefore asked, here and below,
// by `place` and `few`.
fn group_entry(past: Tables, place: usize, parent: u8, capacity: u16) -> Group
    requires place { place ≤ 15363 }
    requires few { length past.groups.now < 64 }
    requires parent { IsParent past.groups.now parent }
    ensures { result ≡ entry_of_group (content_of past.entry) place parent capacity }
{
    let name = place + 4;
    let parent = parent_of(parent);
    let dredger = match parent {
        None => past.groups.len() as u8,
        Some(parent) => past.groups[usize::from(parent)].dredger,
    };
    Group {
        parent,
        capacity,
        name,
        dredger,
    }
}

fn wish_entry(past: Tables, group: u8, points: u16, term: u8) -> Contract
    requires some { 0 < length past.trainees.now }
    requires few { length past.trainees.now ≤ 256 }
    requires group { group < length past.groups.now }
    ensures { result ≡ entry_of_wish (content_of past.entry) group points term }
{
    let last = past.trainees.len() - 1;
    let owner = past.trainees[last];
    let dredger = past.groups[usize::from(group)].dredger;
    Contract {
        trainee: last as u16,
        group,
        dredger,
        points,
        term,
        lot: owner.lot,
        flag: owner.flag,
    }
}

// The entry of a record at `place` that keeps the rules, after those with these entries.
pub(crate) fn entry_of(rec: Record, place: usize, past: Tables) -> Entry
    requires place { place ≤ 15363 }
    requires few { length past.trainees.now ≤ 256 }
    requires room { Room (content_of past) (kind rec) }
    requires range { InRange (content_of past).groups rec }
    requires belongs { Belongs (content_of past) rec }
    ensures { result ≡ entry_of (content_of past.entry) place rec }
{
    match rec {
        Record::Group {
            parent,
            capacity,
            ..
        } => Entry::Group(group_entry(past, place, parent, capacity)),
        Record::Seat { dredger, rule } => Entry::Seat(Seat {
            dredger,
            rule: Rule::try_from(rule),
        }),
        Record::Reserve { dredger, seats } => Entry::Reserve(Reservation { dredger, seats }),
        Record::Trainee { lot, flag, .. } => Entry::Trainee(Trainee {
            lot,
            flag: flag == 1,
            name: place + 4,
        }),
        Record::Wish {
            group,
            points,
            term,
        } => Entry::Contract(wish_entry(past, group, points, term)),
        Record::Bar { dredger } => Entry::Bar(Barring {
            trainee: (past.trainees.len() - 1) as u16,
            dredger,
        }),
        Record::End { wishes } => Entry::End(wishes),
    }
}

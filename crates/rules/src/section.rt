// The part of a deck that its last record belongs to, and which kind may follow.
ghost use Rattle.rules.specs.Order.{after, may};
ghost use Rattle.std.specs.Prelude.{◌≡◌, true, false, MatchResult};

use crate::fault::RecordFault;
use format::record::Kind;

#[derive(Clone, Copy, PartialEq, Eq, Debug)]
pub enum Section {
    Groups,
    Seats,
    Reserves,
    Trainees,
    Closed,
}

// The section after a record of this kind, which stands at `place`.
pub fn advance(section: Section, next: Kind, place: usize) -> Result<Section, RecordFault>
    ensures { MatchResult result (λ s. (may section next ≡ true) × (s ≡ after next))
        (λ f. (may section next ≡ false) × (f ≡ RecordFault.Misplaced place)) }
{
    match (section, next) {
        (Section::Groups, Kind::Group) => Ok(Section::Groups),
        (Section::Groups | Section::Seats, Kind::Seat) => Ok(Section::Seats),
        (Section::Groups | Section::Seats | Section::Reserves, Kind::Reserve) => Ok(
            Section::Reserves,
        ),
        (Section::Groups | Section::Seats | Section::Reserves | Section::Trainees, Kind::Trainee) =>
            Ok(Section::Trainees),
        (Section::Trainees, Kind::Wish | Kind::Bar) => Ok(Section::Trainees),
        (Section::Groups | Section::Seats | Section::Reserves | Section::Trainees, Kind::End) => Ok(
            Section::Closed,
        ),
        _ => Err(RecordFault::Misplaced { place }),
    }
}

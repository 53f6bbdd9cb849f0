// Comparing a table with another that may be longer.
ghost use Rattle.std.proofs.Common.{rules};
ghost use Rattle.std.specs.Prelude.{◌≡◌, All, Decides};
ghost use Rattle.deck.specs.Alike.{Extends, Front};
ghost use Rattle.rules.specs.Contents.{zero_barring, zero_contract, zero_group, zero_reservation, zero_seat, zero_trainee};

use rules::table::{Barring, Contract, Group, Reservation, Seat, Trainee};

// An entry of a table: the default is blank, and entries that compare equal are the same.
pub trait Entry: Copy + Default + PartialEq {
    ghost blank: { Self };

    ghost blank_is: { (x : Self) → Self.is_default x → x ≡ blank };

    ghost same_is: { (x y : Self) → Decides (Self.eq x y) (x ≡ y) };
}

impl Entry for Group {
    ghost blank = { zero_group };

    ghost blank_is = { Prim.search rules };

    ghost same_is = { Prim.search rules };
}

impl Entry for Seat {
    ghost blank = { zero_seat };

    ghost blank_is = { Prim.search rules };

    ghost same_is = { Prim.search rules };
}

impl Entry for Reservation {
    ghost blank = { zero_reservation };

    ghost blank_is = { Prim.search rules };

    ghost same_is = { Prim.search rules };
}

impl Entry for Trainee {
    ghost blank = { zero_trainee };

    ghost blank_is = { Prim.search rules };

    ghost same_is = { Prim.search rules };
}

impl Entry for Contract {
    ghost blank = { zero_contract };

    ghost blank_is = { Prim.search rules };

    ghost same_is = { Prim.search rules };
}

impl Entry for Barring {
    ghost blank = { zero_barring };

    ghost blank_is = { Prim.search rules };

    ghost same_is = { Prim.search rules };
}

fn are_blank<T: Entry>(entries: &[T]) -> bool
    ensures { Decides result (All (λ e. e ≡ T.Entry.blank) entries.now) }
{
    let blank = T::default();
    entries.iter().all(|entry| *entry == blank)
}

#[tactic(auto, using(crate::proofs::Extensions::front_is))]
fn begins<T: Entry>(own: &[T], given: &[T]) -> bool
    ensures { Decides result (Front own.now given.now) }
{
    given.starts_with(own)
}

// Whether a table is another, and blank after it.
#[tactic(auto, using(crate::proofs::Extensions::extended, crate::proofs::Extensions::rest_blank, crate::proofs::Extensions::front_of))]
pub fn extends<T: Entry>(own: &[T], given: &[T]) -> bool
    ensures { Decides result (Extends T.Entry.blank own.now given.now) }
{
    begins(own, given) && are_blank(&given[own.len()..])
}

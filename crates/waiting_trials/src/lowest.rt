// A line of another kind: it takes the one with the lowest number.
#![tactic(auto, using(crate::proofs::Rows::joins_last, crate::proofs::Rows::takes_one))]

ghost use Rattle.moves.specs.Moves.{any};

use crate::lines::{joined, taken, tells};
use arrayvec::ArrayVec;
use line::all::{drain, join_all};
use line::line::Line;
use strip::row::Full;

// They wait in no order.
#[derive(Drop)]
pub struct Lowest {
    trainees: ArrayVec<u16, 8>,
}

impl Line for Lowest {
    ghost waiting = { λ s. record { items = s.trainees.items; places = 8 } };

    // Of who joins and who is taken no more is said than the bag says.
    ghost joins = { any };

    ghost takes = { any };

    fn join(&mut self, trainee: u16) -> Result<(), Full> {
        self.trainees.try_push(trainee).map_err(|_| Full::NoPlace)
    }

    fn take(&mut self) -> Option<u16> {
        let (at, _) = self.trainees.iter().enumerate().min_by_key(|(_, t)| **t)?;
        Some(self.trainees.remove(at))
    }

    fn places(&self) -> usize {
        8
    }

    fn count(&self) -> usize {
        self.trainees.len()
    }
}

#[test]
fn a_line_by_number(rt: HostRuntime) {
    let mut line = Lowest {
        trainees: ArrayVec::new(),
    };
    tells(&rt, &line, 8, 0);
    joined(&rt, &mut line, &[5, 2]);
    assert_eq!(rt;
        join_all(&mut line, &[7, 2, 65535, 0, 6, 3, 4]),
        Err(Full::NoPlace)
    );
    tells(&rt, &line, 8, 2);
    assert_eq!(rt; join_all(&mut line, &[7, 2, 65535, 0, 6, 3]), Ok(()));
    assert_eq!(rt; line.join(1), Err(Full::NoPlace));
    taken(&rt, &mut line, &[0, 2, 2, 3, 5, 6, 7, 65535]);
    joined(&rt, &mut line, &[8, 1, 8]);
    assert_eq!(rt; drain(&mut line), 3);
    tells(&rt, &line, 8, 0);
}

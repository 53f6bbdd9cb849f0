// The sums of one dredger's groups.
ghost use Rattle.std.specs.Prelude.{◌≡◌, ◌<◌, if◌then◌else◌, nat_lt};

// How many contracts of the dredger have a place in each group.
#[derive(Clone, Copy)]
pub(crate) struct Sums {
    dredger: u8,
    counts: [u32; 64],
}

impl Sums {
    ghost use Rattle.quota.specs.Climb.{no_sums, sum_of, turned, with_one};

    pub(crate) fn new() -> Sums
        ensures { result ≡ no_sums }
    {
        Sums {
            dredger: 0,
            counts: [0; 64],
        }
    }

    // Turns to a dredger: the sums of another begin again.
    pub(crate) fn turn(&mut self, dredger: u8)
        ensures { self.new ≡ turned self.old dredger }
    {
        if self.dredger != dredger {
            self.dredger = dredger;
            self.counts = [0; 64];
        }
    }

    // Takes a place in group v, if one is left under its cap.
    pub(crate) fn take_place(&mut self, v: u8, cap: u16) -> bool
        requires { v < 64 }
        ensures took { result ≡ nat_lt (sum_of self.old v) cap }
        ensures sums { self.new ≡ (if result then with_one self.old v else self.old) }
    {
        let v = usize::from(v);
        let free = self.counts[v] < u32::from(cap);
        if free {
            self.counts[v] += 1;
        }
        free
    }
}

// A record of a deck and its kind.
ghost use Rattle.format.specs.Layout.{kind as kind_of, size as size_of};
ghost use Rattle.std.specs.Prelude.{◌≡◌};

#[derive(Clone, Copy, PartialEq, Eq, Debug)]
pub enum Kind {
    Group,
    Seat,
    Reserve,
    Trainee,
    Wish,
    Bar,
    End,
}

// The fields as the bytes give them; nothing is judged yet.
#[derive(Clone, Copy, PartialEq, Eq, Debug)]
pub enum Record {
    Group {
        parent: u8,
        capacity: u16,
        name: [u8; 8],
    },
    Seat {
        dredger: u8,
        rule: u8,
    },
    Reserve {
        dredger: u8,
        seats: u16,
    },
    Trainee {
        lot: u16,
        flag: u8,
        name: [u8; 8],
    },
    Wish {
        group: u8,
        points: u16,
        term: u8,
    },
    Bar {
        dredger: u8,
    },
    End {
        wishes: u16,
    },
}

impl Kind {
    // How many bytes a record of this kind has, its kind byte with them.
    pub fn size(self) -> usize
        ensures { result ≡ size_of self }
    {
        match self {
            Kind::Group | Kind::Trainee => 12,
            Kind::Wish => 5,
            Kind::Reserve => 4,
            Kind::Seat | Kind::End => 3,
            Kind::Bar => 2,
        }
    }
}

impl Record {
    pub fn kind(&self) -> Kind
        ensures { result ≡ kind_of self.now }
    {
        match self {
            Record::Group { .. } => Kind::Group,
            Record::Seat { .. } => Kind::Seat,
            Record::Reserve { .. } => Kind::Reserve,
            Record::Trainee { .. } => Kind::Trainee,
            Record::Wish { .. } => Kind::Wish,
            Record::Bar { .. } => Kind::Bar,
            Record::End { .. } => Kind::End,
        }
    }
}

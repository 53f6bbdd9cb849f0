// What the quota board knows of one group.
ghost use Rattle.std.specs.Prelude.{◌≡◌};

use rules::table::Group;

// A row that no group was given for has no parent and cap 0.
#[derive(Clone, Copy, PartialEq, Eq, Debug, Default)]
pub struct Row {
    pub parent: Option<u8>,
    pub cap: u16,
}

impl From<&Group> for Row {
    ghost use Rattle.quota.specs.Caps.{row_of};

    ghost from_gives = { λ g r. r ≡ row_of g.now };

    fn from(group: &Group) -> Row {
        Row {
            parent: group.parent,
            cap: group.capacity,
        }
    }
}

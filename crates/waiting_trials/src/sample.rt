// Elements of three types, each made of a byte.
use line::log::TurnedDown;

#[derive(Clone, Copy, Debug)]
pub enum Elements {
    Bytes,
    Numbers,
    Pairs,
}

pub trait Sample {
    const ELEMENTS: Elements;

    fn of(x: u8) -> Self;
}

impl Sample for u8 {
    const ELEMENTS: Elements = Elements::Bytes;

    fn of(x: u8) -> u8 {
        x
    }
}

impl Sample for u16 {
    const ELEMENTS: Elements = Elements::Numbers;

    fn of(x: u8) -> u16 {
        u16::from_be_bytes([x, 1])
    }
}

impl Sample for TurnedDown {
    const ELEMENTS: Elements = Elements::Pairs;

    fn of(x: u8) -> TurnedDown {
        TurnedDown {
            contract: u16::from_be_bytes([x, 2]),
            offers: 300 - x as u16,
        }
    }
}

// A fault of the byte layer, and what any fault is told by: number, place and layer.
ghost use Rattle.std.specs.Prelude.{◌≡◌, Some};
ghost use Rattle.format.specs.Refusals.{byte_refusal, layer_name, refusal_by};

use std::fmt;

#[derive(Clone, Copy, PartialEq, Eq, Debug)]
pub enum ByteFault {
    NoByte { place: usize },
    NoKind { place: usize },
    Short { place: usize },
}

#[derive(Clone, Copy, PartialEq, Eq, Debug)]
pub enum Layer {
    Bytes,
    Records,
    Deck,
}

#[derive(Clone, Copy, PartialEq, Eq, Debug)]
pub struct Refusal {
    pub number: u8,
    pub place: usize,
    pub layer: Layer,
}

impl Layer {
    // A refusal by this layer. The numbers are those that the rules fix and that are printed.
    pub fn refusal(self, number: u8, place: usize) -> Refusal
        ensures { result ≡ refusal_by self number place }
    {
        Refusal {
            number,
            place,
            layer: self,
        }
    }
}

impl fmt::Display for Layer {
    ghost output = { λ layer. Some (layer_name layer) };

    fn fmt<W: fmt::Write>(&self, f: &mut fmt::Formatter<W>) -> fmt::Result {
        f.write_str(match self {
            Layer::Bytes => "bytes",
            Layer::Records => "records",
            Layer::Deck => "deck",
        })
    }
}

impl From<ByteFault> for Refusal {
    ghost from_gives = { λ fault refusal. refusal ≡ byte_refusal fault };

    fn from(fault: ByteFault) -> Refusal {
        match fault {
            ByteFault::NoByte { place } => Layer::Bytes.refusal(3, place),
            ByteFault::NoKind { place } => Layer::Bytes.refusal(4, place),
            ByteFault::Short { place } => Layer::Bytes.refusal(6, place),
        }
    }
}

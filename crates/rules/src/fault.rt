// A fault of the record layer, with one of the byte layer whole.
ghost use Rattle.std.specs.Prelude.{◌≡◌};
ghost use Rattle.rules.specs.Refusals.{record_fault_of, record_refusal};

use format::fault::{ByteFault, Layer, Refusal};

#[derive(Clone, Copy, PartialEq, Eq, Debug)]
pub enum RecordFault {
    Bytes(ByteFault),
    Misplaced { place: usize },
    Full { place: usize },
    Range { place: usize },
    Repeat { place: usize },
}

// Each layer of faults takes the one below by an impl of its own.
impl From<ByteFault> for RecordFault {
    ghost from_gives = { λ byte_fault fault. fault ≡ record_fault_of byte_fault };

    fn from(fault: ByteFault) -> RecordFault {
        RecordFault::Bytes(fault)
    }
}

impl From<RecordFault> for Refusal {
    ghost from_gives = { λ fault refusal. refusal ≡ record_refusal fault };

    fn from(fault: RecordFault) -> Refusal {
        match fault {
            RecordFault::Bytes(fault) => fault.into(),
            RecordFault::Misplaced { place } => Layer::Records.refusal(5, place),
            RecordFault::Full { place } => Layer::Records.refusal(7, place),
            RecordFault::Range { place } => Layer::Records.refusal(8, place),
            RecordFault::Repeat { place } => Layer::Records.refusal(9, place),
        }
    }
}

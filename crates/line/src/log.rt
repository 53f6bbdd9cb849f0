// The log: a strip of contracts that were turned down.
ghost use Rattle.line.specs.Logs.{noted};
ghost use Rattle.strip.specs.Calls.{Put};
ghost use Rattle.strip.specs.Rows.{as_row};

use strip::row::{Full, Strip};

// A contract that was turned down, and how many offers had been made by then.
#[derive(Clone, Copy, PartialEq, Eq, Debug, Default)]
pub struct TurnedDown {
    pub contract: u16,
    pub offers: u16,
}

// One more entry at the new end of the log.
pub fn note<'a>(log: &mut Strip<'a, TurnedDown>, contract: u16, offers: u16) -> Result<(), Full>
    ensures { Put (as_row log.old) (noted contract offers) result (as_row log.new) }
{
    log.put(TurnedDown { contract, offers })
}

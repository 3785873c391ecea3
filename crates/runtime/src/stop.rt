// Why a run ends without a value.
ghost use Rattle.std.specs.Prelude.{◌≡◌};
ghost use Rattle.runtime.specs.Stops.{number_of};
ghost use Rattle.runtime.specs.declared.stop.Stop.TheVariants.{Address, ReportFull};

use crate::host::Full;
use crate::memory::Outside;

#[derive(Clone, Copy, Debug, PartialEq, Eq)]
pub enum Stop {
    // The ticks or steps that the run was allowed are used up.
    Allowance,
    // No pending entry is free for one more open node.
    PendingFull,
    // No stack cell is free.
    StackFull,
    // An address does not lie below the top of the memory.
    Address,
    // The memory has too few cells for what `new` asks.
    MemoryFull,
    // `new` was asked for fewer than 0 cells.
    NegativeSize,
    // What is to be written as a byte is not 0 to 255.
    NotByte,
    // The host has no fact of that number.
    NoFact,
    // The report has no room for the whole text.
    ReportFull,
    // An N-code cell is not as described, or nodes stand over 32 deep.
    BadCell,
    // An S-code word is not as described, or not fit where it stands.
    BadWord,
    // A word takes more cells than lie above the entry depth.
    FewCells,
}

impl Stop {
    // The number that the stop is known by.
    pub fn number(self) -> u8
        ensures { result ≡ number_of self }
    {
        // A table, and no discriminants: with these a stop by another's number would not compile, so that no planted bug could
        // show that the contract finds it.
        match self {
            Stop::Allowance => 20,
            Stop::PendingFull => 21,
            Stop::StackFull => 22,
            Stop::Address => 23,
            Stop::MemoryFull => 24,
            Stop::NegativeSize => 25,
            Stop::NotByte => 26,
            Stop::NoFact => 27,
            Stop::ReportFull => 28,
            Stop::BadCell => 29,
            Stop::BadWord => 30,
            Stop::FewCells => 31,
        }
    }
}

// What lies outside a memory, no address of a run reaches.
impl From<Outside> for Stop {
    ghost from_gives = { λ _ stop. stop ≡ Address };

    fn from(_outside: Outside) -> Stop {
        Self::Address
    }
}

impl From<Full> for Stop {
    ghost from_gives = { λ _ stop. stop ≡ ReportFull };

    fn from(_full: Full) -> Stop {
        Self::ReportFull
    }
}

// The steps on the words that count an EDT's open slots.

/// A step on the words of one EDT.
#[derive(Clone, Copy)]
pub enum WordStep {
    /// Puts the payload of a slot into its word.
    Put { slot: u32, payload: u64 },
    /// Counts a slot whose payload was put.
    Count,
    /// Counts the making of the EDT, which has so many slots.
    CountMade { slots: u32 },
    /// Reads the payload of a slot.
    Read { slot: u32 },
    /// Claims the EDT, where it is ready.
    Claim,
    /// Gives up the claim of an EDT that waits.
    Park,
    /// Makes an EDT ready that was parked and was resumed.
    Resume,
    /// Gives up the claim of an EDT that has its end.
    Drop,
}

/// A step on the live word, or on the commit word once the live word was read as 0.
#[derive(Clone, Copy)]
pub enum LiveStep {
    /// Adds units, which the clerk has to spare then.
    Raise { units: u64 },
    /// Takes away units that the clerk has to spare.
    Lower { units: u64 },
    /// Reads the live word.
    Read,
    /// Reads how many entries there are.
    Entries,
}

// The entries of a journal.
use crate::writes::Writes;
use ocr_body_meaning::{Answer, Call};
use ocr_guid::{Code, Guid};

/// What a message brings to an object.
#[derive(Clone, Copy, PartialEq, Eq, Debug)]
pub enum What {
    /// The slot of the EDT gets the payload.
    Set {
        edt: Guid,
        slot: u32,
        payload: Guid,
    },
    /// The slot of the event is satisfied with the payload.
    Satisfy {
        event: Guid,
        slot: u32,
        payload: Guid,
    },
    /// A member leaves the finish scope.
    Leave {
        scope: Guid,
    },
}

/// A message: the place of the entry that sent it, its index among that entry's messages, and what
/// it brings.
#[derive(Clone, Copy, PartialEq, Eq, Debug)]
pub struct Message {
    pub place: u64,
    pub index: u32,
    pub what: What,
}

/// A fault in a body.
#[derive(Clone, Copy, PartialEq, Eq, Debug)]
pub enum Fault {
    ZeroDivisor,
    BadIndex,
    NotHeld,
    NotWritable,
    Fuel,
}

/// How a run was stopped.
#[derive(Clone, Copy, PartialEq, Eq, Debug)]
pub enum Stop {
    /// The EDT called `ocrShutdown`.
    Shutdown { edt: Guid },
    /// The EDT called `ocrAbort`.
    Abort { edt: Guid, code: u64 },
    /// The EDT's body had a fault.
    Fault { edt: Guid, fault: Fault },
    /// Too few numbers are left for a creation that a body says next, where other workers may each
    /// hold up to three back.
    Objects,
    /// With an entry of this weight the run would weigh more than a worker's share. The worker is
    /// the one whose share was full.
    Events { worker: u32, weight: u64 },
    /// Memory was refused.
    Memory,
}

/// One step of the machine.
#[derive(Drop)]
pub enum Entry {
    /// The EDT made a call. The home is the scope that an EDT made by it joins, and the writes are
    /// the private writes of a hold in EW that it ends.
    Call {
        edt: Guid,
        home: Guid,
        call: Call,
        answer: Answer,
        writes: Writes,
    },
    /// A message arrived.
    Deliver {
        message: Message,
        code: Code,
    },
    /// The EDT acquired the block.
    Acquire {
        edt: Guid,
        block: Guid,
    },
    /// The EDT went to the end of the block's queue.
    Wait {
        edt: Guid,
        block: Guid,
    },
    /// The EDT found the block gone.
    StaleAcquire {
        edt: Guid,
        block: Guid,
    },
    /// The EDT's body began.
    Start {
        edt: Guid,
    },
    /// The body had ended, and its EDT gave the block back.
    Free {
        edt: Guid,
        block: Guid,
        writes: Writes,
    },
    /// The EDT ended, with the GUID that its body returned.
    End {
        edt: Guid,
        returned: Guid,
    },
    /// The run was stopped.
    Stop(Stop),
}

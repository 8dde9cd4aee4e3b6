// The calls that a body makes, with their numbers, and what they answer.
ghost use Rattle.std.specs.Prelude.{◌≡◌, IsTrue, ◌↔◌};
ghost use Rattle.ocr_body_meaning.specs.Call.{is_creation};

use ocr_guid::{Code, Guid, NoMemory, Seq};

/// A call with the values of its arguments. `ocrEventSatisfy` is `Satisfy` with slot 0, and a
/// `function` is the function's number, from 1 in the order of the text.
#[derive(Clone, PartialEq, Eq, Drop)]
pub enum Call {
    DbCreate {
        length: u64,
        flags: u64,
    },
    DbRelease {
        block: u64,
    },
    DbDestroy {
        block: u64,
    },
    EventCreate {
        kind: u64,
        flags: u64,
    },
    EventCreateParams {
        kind: u64,
        flags: u64,
        max_gen: u64,
        nb_sat: u64,
        nb_deps: u64,
    },
    EventDestroy {
        event: u64,
    },
    Satisfy {
        event: u64,
        payload: u64,
        slot: u64,
    },
    AddDependence {
        source: u64,
        target: u64,
        slot: u64,
        mode: u64,
    },
    TemplateCreate {
        function: u32,
        paramc: u64,
        depc: u64,
    },
    TemplateDestroy {
        template: u64,
    },
    /// `output` says whether an output event was asked for.
    EdtCreate {
        template: u64,
        paramc: u64,
        params: Seq<u64>,
        depc: u64,
        deps: Seq<u64>,
        flags: u64,
        output: bool,
    },
    Shutdown,
    Abort {
        code: u64,
    },
    Load {
        block: u64,
        word: u64,
    },
    Store {
        block: u64,
        word: u64,
        value: u64,
    },
    Print {
        value: u64,
    },
}

impl Call {
    /// Whether the call makes an object.
    pub fn is_creation(&self) -> bool
        ensures { result ≡ is_creation self.now }
    {
        match self {
            Call::DbCreate { .. }
            | Call::EventCreate { .. }
            | Call::EventCreateParams { .. }
            | Call::TemplateCreate { .. }
            | Call::EdtCreate { .. } => true,
            _ => false,
        }
    }

    /// Whether it is the same call with the same arguments, as `==` answers. Here it is a clause.
    #[tactic(auto, using(crate::proofs::Same::same_call, crate::proofs::Same::call_same))]
    pub fn is_same(&self, other: &Call) -> bool
        ensures { IsTrue result ↔ (self.now ≡ other.now) }
    {
        self == other
    }
}

/// What a call answers: its code, the value that the body gets, and the scope and the output event
/// that it made, each 0 where it made none.
#[derive(Clone, Copy, PartialEq, Eq, Debug)]
pub struct Answer {
    pub code: Code,
    pub value: u64,
    pub scope: Guid,
    pub output: Guid,
}

/// Why a body stopped before its end.
#[derive(Clone, Copy, PartialEq, Eq, Debug)]
pub enum BodyStop {
    /// `ocrShutdown()`.
    Shutdown,
    /// `ocrAbort(code)`.
    Abort(u64),
    /// A division by 0, or a remainder by 0.
    ZeroDivisor,
    /// An index past the end.
    BadIndex,
    /// A load or store on a block that the EDT does not hold.
    NotHeld,
    /// A store on a block that is held for reading.
    NotWritable,
    /// No fuel was left.
    Fuel,
    /// The run was found closed.
    Closed,
    /// Memory was refused.
    NoMemory,
}

impl From<NoMemory> for BodyStop {
    ghost use Rattle.ocr_body_meaning.specs.declared.call.BodyStop.TheVariants as stop;

    ghost from_gives = { λ _ e. e ≡ stop.NoMemory };

    fn from(_refused: NoMemory) -> Self {
        BodyStop::NoMemory
    }
}

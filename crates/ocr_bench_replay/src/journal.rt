// A journal as it is built, entry by entry.
use ocr_base::{NoMemory, Seq};
use ocr_body_meaning::{Answer, Call};
use ocr_guid::{Code, Guid};
use ocr_machine_history::{ARGUMENTS, Entry, MAIN_EDT, Message, What, Writes};
use std::alloc::Global;

/// The EDT of `mainEdt`.
pub(crate) const MAIN: Guid = Guid(MAIN_EDT);

/// EDT_PARAM_DEF.
const DEFAULT: u64 = 4_294_967_294;

/// An EDT that is to be made: the scope that it joins, and what its creation says.
#[derive(Clone, Copy)]
pub(crate) struct New<'a> {
    pub home: Guid,
    pub template: Guid,
    pub params: &'a [u64],
    pub deps: &'a [u64],
    pub finish: bool,
    pub output: bool,
}

/// An EDT that was made at a place, with its scope and its output event.
#[derive(Clone, Copy)]
pub(crate) struct Made {
    pub place: u64,
    pub edt: Guid,
    pub scope: Guid,
    pub output: Guid,
}

/// The entries so far, and the number of the last object that they made.
#[derive(Drop)]
pub(crate) struct Journal {
    alloc: Global,
    pub entries: Vec<Entry>,
    pub objects: u64,
}

fn list(alloc: Global, words: &[u64]) -> Result<Seq<u64>, NoMemory> {
    Ok(Seq::from_vec(Vec::from_slice(alloc, words)?))
}

/// The slot of an EDT gets a payload.
pub(crate) fn set(edt: Guid, payload: Guid) -> What {
    What::Set {
        edt,
        slot: 0,
        payload,
    }
}

/// A slot of an event is satisfied.
pub(crate) fn satisfied(event: Guid, slot: u32, payload: Guid) -> What {
    What::Satisfy {
        event,
        slot,
        payload,
    }
}

impl Journal {
    /// EDT 2 starts, and reads the size from its arguments.
    pub fn opened(alloc: Global, size: u32) -> Result<Journal, NoMemory> {
        let mut journal = Journal {
            alloc,
            entries: Vec::new(alloc),
            objects: MAIN_EDT,
        };
        journal.acquire(MAIN, Guid(ARGUMENTS))?;
        journal.start(MAIN)?;
        journal.load(MAIN, Guid(ARGUMENTS), 1, u64::from(size))?;
        Ok(journal)
    }

    /// EDT 2 ends.
    pub fn close(&mut self) -> Result<(), NoMemory> {
        self.free(MAIN, Guid(ARGUMENTS))?;
        self.end(MAIN, Guid::NULL)?;
        Ok(())
    }

    // Enters the entry, and gives its place.
    fn enter(&mut self, entry: Entry) -> Result<u64, NoMemory> {
        let place = self.entries.len() as u64;
        self.entries.push(entry)?;
        Ok(place)
    }

    // The number of a new object.
    fn fresh(&mut self) -> Guid {
        self.objects = self.objects.wrapping_add(1);
        Guid(self.objects)
    }

    /// An EDT acquires a block.
    pub fn acquire(&mut self, edt: Guid, block: Guid) -> Result<u64, NoMemory> {
        self.enter(Entry::Acquire { edt, block })
    }

    /// An EDT is let wait for a block.
    pub fn wait(&mut self, edt: Guid, block: Guid) -> Result<u64, NoMemory> {
        self.enter(Entry::Wait { edt, block })
    }

    /// An EDT finds a block of its plan destroyed.
    pub fn stale(&mut self, edt: Guid, block: Guid) -> Result<u64, NoMemory> {
        self.enter(Entry::StaleAcquire { edt, block })
    }

    /// A body starts.
    pub fn start(&mut self, edt: Guid) -> Result<u64, NoMemory> {
        self.enter(Entry::Start { edt })
    }

    /// An EDT that has ended its body gives back a block, with no private writes.
    pub fn free(&mut self, edt: Guid, block: Guid) -> Result<u64, NoMemory> {
        let writes = Writes::none(self.alloc);
        self.enter(Entry::Free { edt, block, writes })
    }

    /// An EDT ends, and returns this.
    pub fn end(&mut self, edt: Guid, returned: Guid) -> Result<u64, NoMemory> {
        self.enter(Entry::End { edt, returned })
    }

    /// A message arrives.
    pub fn deliver(&mut self, place: u64, index: u32, what: What) -> Result<u64, NoMemory> {
        self.enter(Entry::Deliver {
            message: Message { place, index, what },
            code: Code::Done,
        })
    }

    fn call(&mut self, edt: Guid, home: Guid, call: Call, answer: Answer) -> Result<u64, NoMemory> {
        let writes = Writes::none(self.alloc);
        self.enter(Entry::Call {
            edt,
            home,
            call,
            answer,
            writes,
        })
    }

    // A call that makes nothing.
    fn plain(&mut self, edt: Guid, call: Call, value: u64) -> Result<u64, NoMemory> {
        let answer = Answer {
            code: Code::Done,
            value,
            scope: Guid::NULL,
            output: Guid::NULL,
        };
        self.call(edt, Guid::NULL, call, answer)
    }

    /// A body prints a value.
    pub fn print(&mut self, edt: Guid, value: u64) -> Result<u64, NoMemory> {
        self.plain(edt, Call::Print { value }, 0)
    }

    /// A body loads a word, with this value.
    pub fn load(&mut self, edt: Guid, block: Guid, word: u64, value: u64) -> Result<u64, NoMemory> {
        let call = Call::Load {
            block: block.0,
            word,
        };
        self.plain(edt, call, value)
    }

    /// A body stores a value in a word.
    pub fn store(
        &mut self,
        edt: Guid,
        block: Guid,
        word: u64,
        value: u64,
    ) -> Result<u64, NoMemory> {
        let call = Call::Store {
            block: block.0,
            word,
            value,
        };
        self.plain(edt, call, 0)
    }

    /// A body releases a block.
    pub fn release(&mut self, edt: Guid, block: Guid) -> Result<u64, NoMemory> {
        self.plain(edt, Call::DbRelease { block: block.0 }, 0)
    }

    /// A body destroys a block.
    pub fn destroy(&mut self, edt: Guid, block: Guid) -> Result<u64, NoMemory> {
        self.plain(edt, Call::DbDestroy { block: block.0 }, 0)
    }

    /// EDT 2 adds a dependence.
    pub fn depend(
        &mut self,
        source: Guid,
        target: Guid,
        slot: u64,
        mode: u64,
    ) -> Result<u64, NoMemory> {
        let call = Call::AddDependence {
            source: source.0,
            target: target.0,
            slot,
            mode,
        };
        self.plain(MAIN, call, 0)
    }

    /// A body satisfies a slot of an event.
    pub fn satisfy(
        &mut self,
        edt: Guid,
        event: Guid,
        slot: u64,
        payload: Guid,
    ) -> Result<u64, NoMemory> {
        let call = Call::Satisfy {
            event: event.0,
            payload: payload.0,
            slot,
        };
        self.plain(edt, call, 0)
    }

    // EDT 2 makes an object that is no EDT.
    fn make(&mut self, call: Call) -> Result<Guid, NoMemory> {
        let made = self.fresh();
        self.plain(MAIN, call, made.0)?;
        Ok(made)
    }

    /// EDT 2 makes a block of 8 bytes.
    pub fn block(&mut self, flags: u64) -> Result<Guid, NoMemory> {
        self.make(Call::DbCreate { length: 8, flags })
    }

    /// EDT 2 makes an event.
    pub fn event(&mut self, kind: u64, flags: u64) -> Result<Guid, NoMemory> {
        self.make(Call::EventCreate { kind, flags })
    }

    /// EDT 2 makes a channel that takes an argument.
    pub fn channel(&mut self, kind: u64, max_gen: u64) -> Result<Guid, NoMemory> {
        self.make(Call::EventCreateParams {
            kind,
            flags: 1,
            max_gen,
            nb_sat: 1,
            nb_deps: 1,
        })
    }

    /// EDT 2 makes a template.
    pub fn template(&mut self, function: u32, paramc: u64, depc: u64) -> Result<Guid, NoMemory> {
        self.make(Call::TemplateCreate {
            function,
            paramc,
            depc,
        })
    }

    /// An EDT makes another one.
    pub fn create(&mut self, edt: Guid, new: &New<'_>) -> Result<Made, NoMemory> {
        let call = Call::EdtCreate {
            template: new.template.0,
            paramc: DEFAULT,
            params: list(self.alloc, new.params)?,
            depc: DEFAULT,
            deps: list(self.alloc, new.deps)?,
            flags: u64::from(new.finish),
            output: new.output,
        };
        let made = self.fresh();
        let answer = Answer {
            code: Code::Done,
            value: made.0,
            scope: self.fresh_where(new.finish),
            output: self.fresh_where(new.output),
        };
        Ok(Made {
            place: self.call(edt, new.home, call, answer)?,
            edt: made,
            scope: answer.scope,
            output: answer.output,
        })
    }

    // The number of a new object, where there is one.
    fn fresh_where(&mut self, on: bool) -> Guid {
        if on { self.fresh() } else { Guid::NULL }
    }
}

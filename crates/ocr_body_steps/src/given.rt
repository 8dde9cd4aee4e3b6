// What the arguments of a call were found to be, and the call that they make.
ghost use Rattle.std.specs.Prelude.{◌≡◌, IfOk, IfSome, OnOk, List, ℕ, false};
ghost use Rattle.ocr_body_meaning.specs.Call.{is_access};
ghost use Rattle.ocr_body_meaning.specs.Meaning.{State, Value, nothing_given, with_value, with_list};
ghost use Rattle.ocr_body_meaning.specs.Meaning.{function_in, is_output, made_step};
ghost use Rattle.ocr_body_meaning.specs.Meaning as meaning;
ghost use Rattle.ocr_program_tree.specs.Tree.{Arguments, names_in};
ghost use Rattle.ocr_body_steps.specs.Given.{given_of, output_place, way_step};

use ocr_base::{NoMemory, Seq};
use ocr_body_code::Named;
use ocr_body_meaning::{BodyStop, Call};
use ocr_program_tree::CallName;
use smallvec::SmallVec;
use std::alloc::Global;

/// The values of a call's arguments and its lists of values, each in the order of the text. As many
/// as any call has take no memory of their own. Empty lists are counted, till another comes.
#[derive(Drop)]
pub struct Given {
    pub values: SmallVec<u64, 6>,
    pub lists: SmallVec<Vec<u64>, 2>,
    /// How many empty lists come after those of `lists`.
    pub empty: usize,
}

impl Given {
    /// Nothing found yet.
    pub fn new(alloc: Global) -> Self
        ensures { given_of result ≡ nothing_given }
    {
        Given {
            values: SmallVec::new(alloc),
            lists: SmallVec::new(alloc),
            empty: 0,
        }
    }

    /// A value more. Refused only for want of memory.
    #[inline(always)]
    pub fn add_value(&mut self, value: u64) -> Result<(), NoMemory>
        ensures { OnOk result (given_of self.new ≡ with_value (given_of self.old) value) }
    {
        if !self.values.spilled() && self.values.len() < self.values.inline_size() {
            self.values.push_reserved(value);
            return Ok(());
        }
        self.push_value(value)
    }

    // The same of a value that may need memory.
    #[inline(never)]
    fn push_value(&mut self, value: u64) -> Result<(), NoMemory>
        ensures { OnOk result (given_of self.new ≡ with_value (given_of self.old) value) }
    {
        self.values.push(value)?;
        Ok(())
    }

    /// A list more. Refused only for want of memory.
    #[inline(always)]
    pub fn add_list(&mut self, list: Seq<u64>) -> Result<(), NoMemory>
        ensures { OnOk result (given_of self.new ≡ with_list (given_of self.old) list) }
    {
        if list.is_empty() && self.empty < usize::MAX {
            self.empty += 1;
            return Ok(());
        }
        self.push_list(list)
    }

    // The same of a list that is kept after those that were counted.
    #[inline(never)]
    fn push_list(&mut self, list: Seq<u64>) -> Result<(), NoMemory>
        ensures { OnOk result (given_of self.new ≡ with_list (given_of self.old) list) }
    {
        self.keep_empty()?;
        self.lists.push(list.into_vec())?;
        Ok(())
    }

    // Keeps the lists that were counted.
    fn keep_empty(&mut self) -> Result<(), NoMemory>
        ensures same { OnOk result (given_of self.new ≡ given_of self.old) }
        ensures none { OnOk result (self.new.empty ≡ 0) }
    {
        while self.empty > 0 {
            self.lists.push(Vec::new(*self.lists.allocator()))?;
            self.empty -= 1;
        }
        Ok(())
    }

    /// The value at a place, 0 past the last.
    pub fn value(&self, place: usize) -> u64
        ensures { result ≡ meaning.value (given_of self.now) place }
    {
        if place < self.values.len() {
            self.values[place]
        } else {
            0
        }
    }

    /// The list at a place, the empty one past the last: a copy, refused only for want of memory.
    pub fn list(&self, alloc: Global, place: usize) -> Result<Seq<u64>, NoMemory>
        ensures { IfOk result (λ list. list ≡ meaning.values (given_of self.now) place) }
    {
        let lists = self.lists.as_slice();
        if place >= lists.len() || lists[place].is_empty() {
            return Ok(Seq::new(alloc));
        }
        Ok(Seq::from_vec(Vec::from_slice(alloc, &lists[place])?))
    }

    /// The values as a list: a copy, which takes no memory where there is none. Refused only for
    /// want of memory.
    pub fn as_list(&self, alloc: Global) -> Result<Seq<u64>, NoMemory>
        ensures { IfOk result (λ list. list ≡ (given_of self.now).values) }
    {
        Ok(Seq::from_vec(Vec::from_slice(alloc, &self.values)?))
    }
}

// The call of ocrEdtCreate, with an output event or without.
#[inline(always)]
fn edt_create(alloc: Global, given: &Given, output: bool) -> Result<Call, NoMemory>
    ensures { IfOk result (λ call. call ≡ Call.EdtCreate (meaning.value (given_of given.now) 0)
        (meaning.value (given_of given.now) 1) (meaning.values (given_of given.now) 0)
        (meaning.value (given_of given.now) 2) (meaning.values (given_of given.now) 1)
        (meaning.value (given_of given.now) 3) output) }
{
    let params = given.list(alloc, 0)?;
    let deps = given.list(alloc, 1)?;
    Ok(Call::EdtCreate {
        template: given.value(0),
        paramc: given.value(1),
        params,
        depc: given.value(2),
        deps,
        flags: given.value(3),
        output,
    })
}

// The calls with fields of their own, each by its form.
fn db_create(given: &Given) -> Call
    ensures { result ≡ Call.DbCreate (meaning.value (given_of given.now) 0)
        (meaning.value (given_of given.now) 1) }
{
    Call::DbCreate {
        length: given.value(0),
        flags: given.value(1),
    }
}

fn event_create(given: &Given) -> Call
    ensures { result ≡ Call.EventCreate (meaning.value (given_of given.now) 0)
        (meaning.value (given_of given.now) 1) }
{
    Call::EventCreate {
        kind: given.value(0),
        flags: given.value(1),
    }
}

fn event_create_params(given: &Given) -> Call
    ensures { result ≡ Call.EventCreateParams (meaning.value (given_of given.now) 0)
        (meaning.value (given_of given.now) 1) (meaning.value (given_of given.now) 2)
        (meaning.value (given_of given.now) 3) (meaning.value (given_of given.now) 4) }
{
    Call::EventCreateParams {
        kind: given.value(0),
        flags: given.value(1),
        max_gen: given.value(2),
        nb_sat: given.value(3),
        nb_deps: given.value(4),
    }
}

fn satisfy(given: &Given, slot: u64) -> Call
    ensures { result ≡ Call.Satisfy (meaning.value (given_of given.now) 0)
        (meaning.value (given_of given.now) 1) slot }
{
    Call::Satisfy {
        event: given.value(0),
        payload: given.value(1),
        slot,
    }
}

fn add_dependence(given: &Given) -> Call
    ensures { result ≡ Call.AddDependence (meaning.value (given_of given.now) 0)
        (meaning.value (given_of given.now) 1) (meaning.value (given_of given.now) 2)
        (meaning.value (given_of given.now) 3) }
{
    Call::AddDependence {
        source: given.value(0),
        target: given.value(1),
        slot: given.value(2),
        mode: given.value(3),
    }
}

fn template_create(function: u32, given: &Given) -> Call
    ensures { result ≡ Call.TemplateCreate function (meaning.value (given_of given.now) 0)
        (meaning.value (given_of given.now) 1) }
{
    Call::TemplateCreate {
        function,
        paramc: given.value(0),
        depc: given.value(1),
    }
}

fn load(given: &Given) -> Call
    ensures { result ≡ Call.Load (meaning.value (given_of given.now) 0)
        (meaning.value (given_of given.now) 1) }
{
    Call::Load {
        block: given.value(0),
        word: given.value(1),
    }
}

fn store(given: &Given) -> Call
    ensures { result ≡ Call.Store (meaning.value (given_of given.now) 0)
        (meaning.value (given_of given.now) 1) (meaning.value (given_of given.now) 2) }
{
    Call::Store {
        block: given.value(0),
        word: given.value(1),
        value: given.value(2),
    }
}

/// The call of this name with these values and lists, where the function's number is the first
/// name's and `named` says whether a name stands: the form of each call. Refused only for want of
/// memory, since the lists are copied.
#[inline(always)]
pub fn call_of(
    alloc: Global,
    name: CallName,
    function: u32,
    named: bool,
    given: &Given,
) -> Result<Call, NoMemory>
    ensures { IfOk result (λ call. (f : meaning.Frame) (xs : Arguments)
        → (name ≡ CallName.TemplateCreate → function_in f xs ≡ function)
        → is_output (names_in xs) ≡ named
        → call ≡ meaning.call_of f name xs (given_of given.now)) }
{
    match name {
        CallName::DbCreate => Ok(db_create(given)),
        CallName::DbRelease => Ok(Call::DbRelease {
            block: given.value(0),
        }),
        CallName::DbDestroy => Ok(Call::DbDestroy {
            block: given.value(0),
        }),
        CallName::EventCreate => Ok(event_create(given)),
        CallName::EventCreateParams => Ok(event_create_params(given)),
        CallName::EventDestroy => Ok(Call::EventDestroy {
            event: given.value(0),
        }),
        CallName::Satisfy => Ok(satisfy(given, 0)),
        CallName::SatisfySlot => Ok(satisfy(given, given.value(2))),
        CallName::AddDependence => Ok(add_dependence(given)),
        CallName::TemplateCreate => Ok(template_create(function, given)),
        CallName::TemplateDestroy => Ok(Call::TemplateDestroy {
            template: given.value(0),
        }),
        CallName::EdtCreate => edt_create(alloc, given, named),
        CallName::Shutdown => Ok(Call::Shutdown),
        CallName::Abort => Ok(Call::Abort {
            code: given.value(0),
        }),
        CallName::Load => Ok(load(given)),
        CallName::Store => Ok(store(given)),
    }
}

/// The variable that a call sets to its output event, by its place.
pub fn output_of(name: CallName, named: Option<Named>) -> Option<usize>
    ensures { result ≡ output_place name named }
{
    match name {
        CallName::EdtCreate => match named {
            Some(named) => Some(named.place),
            None => None,
        },
        _ => None,
    }
}

/// What a call comes to: two end the run, a load or store goes by the hold, and all others have
/// codes.
#[derive(Clone, Copy)]
pub enum Way {
    /// The run ends so.
    Ends(BodyStop),
    /// A load from this block of this word.
    Loads(u64, u64),
    /// A store into this block, at this word, of this value.
    Stores(u64, u64, u64),
    /// A call that has codes.
    Coded,
}

/// What this call comes to.
pub fn way_of(call: &Call) -> Way
    ensures step { (outputs : List (List ℕ)) (st : State) (k : Value)
        → made_step call.now outputs st k ≡ way_step result call.now outputs st k }
    ensures coded { result ≡ Way.Coded → is_access call.now ≡ false }
{
    match call {
        Call::Shutdown => Way::Ends(BodyStop::Shutdown),
        Call::Abort { code } => Way::Ends(BodyStop::Abort(*code)),
        Call::Load { block, word } => Way::Loads(*block, *word),
        Call::Store { block, word, value } => Way::Stores(*block, *word, *value),
        _ => Way::Coded,
    }
}

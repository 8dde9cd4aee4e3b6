// The steps of a body that make one call each, and what is kept of its answer.
#![tactic(auto, using(crate::proofs::ApiRulesets::asking))]

ghost use Rattle.std.specs.Prelude.{◌≡◌, ◌<◌, false, length, IfOk, IfSome, OnOk, OnErr};
ghost use Rattle.ocr_body_meaning.specs.Call.{is_access};
ghost use Rattle.ocr_body_meaning.specs.Meaning.{with_variable, print_step};
ghost use Rattle.ocr_body_code.specs.Code.{name_at};
ghost use Rattle.ocr_body_steps.specs.Local.{Fits, state_in};
ghost use Rattle.ocr_body_steps.specs.Api.{Begins, BeginsValue, IsDone};
ghost use Rattle.ocr_body_steps.specs.Steps.{next_of, next_after, GoesOn, IsCause, StillFits, Yields};
ghost use Rattle.ocr_body_steps.specs.Steps.{ask_part, load_part, store_part};

use crate::api::Api;
use crate::local::{Frame, Halt, Local, stopped, write};
use ocr_body_meaning::Call;
use ocr_guid::Guid;

/// A variable gets a value. The Api says what is held meanwhile.
#[inline(always)]
pub fn assign<A: Api>(frame: &Frame, place: usize, value: u64, local: &mut Local, _api: &A)
    requires place { place < length frame.now.names.now }
    requires fits { Fits frame.now local.old }
    ensures state { state_in frame.now (A.holds _api.now) local.new
        ≡ with_variable (name_at frame.now.names.now place) value
        (state_in frame.now (A.holds _api.now) local.old) }
    ensures still_fits { StillFits frame.now local.old local.new }
{
    write(frame, place, value, local);
}

/// A call that has codes.
#[inline(always)]
pub fn ask<A: Api>(
    frame: &Frame,
    call: &Call,
    output: Option<usize>,
    local: &mut Local,
    api: &mut A,
) -> Result<u64, Halt>
    requires ready { A.is_ready api.old }
    requires fits { Fits frame.now local.old }
    requires output { IfSome output (λ place. place < length frame.now.names.now) }
    requires plain { is_access call.now ≡ false }
    requires begins { BeginsValue (next_of A.Api api.old)
        (ask_part frame.now call.now output (A.holds api.old) local.old) }
    ensures goes_on { GoesOn A.Api api.old api.new }
    ensures still_fits { StillFits frame.now local.old local.new }
    ensures ok { IfOk result (λ v. Yields A.Api api.old api.new
        (ask_part frame.now call.now output (A.holds api.old) local.old) v frame.now local.new) }
    ensures err { OnErr result (IsCause A.Api api.old api.new local.new.stop) }
{
    match api.call(call) {
        Ok(answer) => {
            local.code = answer.code.number();
            if let Some(place) = output {
                assign(frame, place, answer.output.0, local, api);
            }
            Ok(answer.value)
        }
        Err(stop) => Err(stopped(stop, local)),
    }
}

/// A load.
#[tactic(auto, using(crate::proofs::ApiRulesets::accessing))]
#[inline(always)]
pub fn load<A: Api>(
    frame: &Frame,
    block: u64,
    word: u64,
    local: &mut Local,
    api: &mut A,
) -> Result<u64, Halt>
    requires ready { A.is_ready api.old }
    requires fits { Fits frame.now local.old }
    requires begins { BeginsValue (next_of A.Api api.old)
        (load_part frame.now block word (A.holds api.old) local.old) }
    ensures goes_on { GoesOn A.Api api.old api.new }
    ensures still_fits { StillFits frame.now local.old local.new }
    ensures ok { IfOk result (λ v. Yields A.Api api.old api.new
        (load_part frame.now block word (A.holds api.old) local.old) v frame.now local.new) }
    ensures err { OnErr result (IsCause A.Api api.old api.new local.new.stop) }
{
    match api.load(Guid(block), word) {
        Ok(value) => Ok(value),
        Err(stop) => Err(stopped(stop, local)),
    }
}

/// A store, which has the value 0.
#[tactic(auto, using(crate::proofs::ApiRulesets::accessing))]
#[inline(always)]
pub fn store<A: Api>(
    frame: &Frame,
    block: u64,
    word: u64,
    value: u64,
    local: &mut Local,
    api: &mut A,
) -> Result<u64, Halt>
    requires ready { A.is_ready api.old }
    requires fits { Fits frame.now local.old }
    requires begins { BeginsValue (next_of A.Api api.old)
        (store_part frame.now block word value (A.holds api.old) local.old) }
    ensures goes_on { GoesOn A.Api api.old api.new }
    ensures still_fits { StillFits frame.now local.old local.new }
    ensures ok { IfOk result (λ v. Yields A.Api api.old api.new
        (store_part frame.now block word value (A.holds api.old) local.old) v frame.now local.new) }
    ensures err { OnErr result (IsCause A.Api api.old api.new local.new.stop) }
{
    match api.store(Guid(block), word, value) {
        Ok(()) => Ok(0), // a store has the value 0
        Err(stop) => Err(stopped(stop, local)),
    }
}

/// A print.
#[inline(never)]
pub fn print<A: Api>(frame: &Frame, value: u64, local: &mut Local, api: &mut A) -> Result<(), Halt>
    requires ready { A.is_ready api.old }
    requires fits { Fits frame.now local.old }
    requires begins { Begins (next_of A.Api api.old)
        (print_step value (state_in frame.now (A.holds api.old) local.old)) }
    ensures goes_on { GoesOn A.Api api.old api.new }
    ensures still_fits { StillFits frame.now local.old local.new }
    ensures ok { OnOk result (IsDone (next_of A.Api api.old)
        (print_step value (state_in frame.now (A.holds api.old) local.old))
        (state_in frame.now (A.holds api.new) local.new) (next_after A.Api api.old api.new)) }
    ensures err { OnErr result (IsCause A.Api api.old api.new local.new.stop) }
{
    match api.call(&Call::Print { value }) {
        Ok(_) => Ok(()),
        Err(stop) => Err(stopped(stop, local)),
    }
}

// The step of a body that makes a call by what its arguments were found to be.
#![tactic(auto, using(crate::proofs::ApiRulesets::asking))]

ghost use Rattle.std.specs.Prelude.{◌≡◌, ◌<◌, false, true, length, IfOk, IfSome, OnErr};
ghost use Rattle.ocr_body_meaning.specs.Call.{is_access};
ghost use Rattle.ocr_body_code.specs.Code.{has_function, arguments_at};
ghost use Rattle.ocr_body_steps.specs.Local.{Fits};
ghost use Rattle.ocr_body_steps.specs.Plain.{are_args_in, IsFirstIn};
ghost use Rattle.ocr_body_steps.specs.Api.{BeginsValue};
ghost use Rattle.ocr_body_steps.specs.Steps.{next_of, GoesOn, IsCause, StillFits, Yields};
ghost use Rattle.ocr_body_steps.specs.Steps.{made_part, way_part};

use crate::api::Api;
use crate::given::{Given, Way, call_of, output_of, way_of};
use crate::local::{Frame, Halt, Local, stopped};
use crate::steps::{ask, load, store};
use ocr_body_code::{ArgCode, Named};
use ocr_body_meaning::{BodyStop, Call};
use ocr_program_tree::CallName;

/// Makes a call whose arguments were found. The commonest has code of its own.
#[inline(always)]
pub fn make<A: Api>(
    frame: &Frame,
    name: CallName,
    args: &ArgCode,
    named: Option<Named>,
    given: &Given,
    local: &mut Local,
    api: &mut A,
) -> Result<u64, Halt>
    requires ready { A.is_ready api.old }
    requires fits { Fits frame.now local.old }
    requires named { has_function name (arguments_at frame.now.names.now args.now) ≡ true }
    requires placed { are_args_in frame.now args.now ≡ true }
    requires first { IsFirstIn frame.now args.now named }
    requires begins { BeginsValue (next_of A.Api api.old)
        (made_part frame.now name args.now given.now (A.holds api.old) local.old) }
    ensures goes_on { GoesOn A.Api api.old api.new }
    ensures still_fits { StillFits frame.now local.old local.new }
    ensures ok { IfOk result (λ v. Yields A.Api api.old api.new
        (made_part frame.now name args.now given.now (A.holds api.old) local.old)
        v frame.now local.new) }
    ensures err { OnErr result (IsCause A.Api api.old api.new local.new.stop) }
{
    if let CallName::EdtCreate = name {
        return make_named(frame, CallName::EdtCreate, args, named, given, local, api);
    }
    make_other(frame, name, args, named, given, local, api)
}

// The same of any call.
#[inline(never)]
fn make_other<A: Api>(
    frame: &Frame,
    name: CallName,
    args: &ArgCode,
    named: Option<Named>,
    given: &Given,
    local: &mut Local,
    api: &mut A,
) -> Result<u64, Halt>
    requires ready { A.is_ready api.old }
    requires fits { Fits frame.now local.old }
    requires named { has_function name (arguments_at frame.now.names.now args.now) ≡ true }
    requires placed { are_args_in frame.now args.now ≡ true }
    requires first { IsFirstIn frame.now args.now named }
    requires begins { BeginsValue (next_of A.Api api.old)
        (made_part frame.now name args.now given.now (A.holds api.old) local.old) }
    ensures goes_on { GoesOn A.Api api.old api.new }
    ensures still_fits { StillFits frame.now local.old local.new }
    ensures ok { IfOk result (λ v. Yields A.Api api.old api.new
        (made_part frame.now name args.now given.now (A.holds api.old) local.old)
        v frame.now local.new) }
    ensures err { OnErr result (IsCause A.Api api.old api.new local.new.stop) }
{
    make_named(frame, name, args, named, given, local, api)
}

// Makes the call of this name, which may be known where this is done in place.
#[inline(always)]
fn make_named<A: Api>(
    frame: &Frame,
    name: CallName,
    _args: &ArgCode,
    named: Option<Named>,
    given: &Given,
    local: &mut Local,
    api: &mut A,
) -> Result<u64, Halt>
    requires ready { A.is_ready api.old }
    requires fits { Fits frame.now local.old }
    requires named { has_function name (arguments_at frame.now.names.now _args.now) ≡ true }
    requires placed { are_args_in frame.now _args.now ≡ true }
    requires first { IsFirstIn frame.now _args.now named }
    requires begins { BeginsValue (next_of A.Api api.old)
        (made_part frame.now name _args.now given.now (A.holds api.old) local.old) }
    ensures goes_on { GoesOn A.Api api.old api.new }
    ensures still_fits { StillFits frame.now local.old local.new }
    ensures ok { IfOk result (λ v. Yields A.Api api.old api.new
        (made_part frame.now name _args.now given.now (A.holds api.old) local.old)
        v frame.now local.new) }
    ensures err { OnErr result (IsCause A.Api api.old api.new local.new.stop) }
{
    let made = call_of(frame.alloc, name, number_of(named), named.is_some(), given);
    let Ok(call) = made else {
        return Err(stopped(BodyStop::NoMemory, local))
    };
    go(
        frame,
        way_of(&call),
        &call,
        output_of(name, named),
        local,
        api,
    )
}

// Makes a call by what it comes to.
#[inline(always)]
fn go<A: Api>(
    frame: &Frame,
    way: Way,
    call: &Call,
    output: Option<usize>,
    local: &mut Local,
    api: &mut A,
) -> Result<u64, Halt>
    requires ready { A.is_ready api.old }
    requires fits { Fits frame.now local.old }
    requires output { IfSome output (λ place. place < length frame.now.names.now) }
    requires plain { way ≡ Way.Coded → is_access call.now ≡ false }
    requires begins { BeginsValue (next_of A.Api api.old)
        (way_part frame.now way call.now output (A.holds api.old) local.old) }
    ensures goes_on { GoesOn A.Api api.old api.new }
    ensures still_fits { StillFits frame.now local.old local.new }
    ensures ok { IfOk result (λ v. Yields A.Api api.old api.new
        (way_part frame.now way call.now output (A.holds api.old) local.old)
        v frame.now local.new) }
    ensures err { OnErr result (IsCause A.Api api.old api.new local.new.stop) }
{
    match way {
        Way::Ends(stop) => Err(stopped(stop, local)),
        Way::Loads(block, word) => load(frame, block, word, local, api),
        Way::Stores(block, word, value) => store(frame, block, word, value, local, api),
        Way::Coded => ask(frame, call, output, local, api),
    }
}

// The number of the function that the first name among the arguments is, where one stands.
fn number_of(named: Option<Named>) -> u32
    ensures { IfSome named (λ named. result ≡ named.number) }
{
    match named {
        Some(named) => named.number,
        None => 0,
    }
}

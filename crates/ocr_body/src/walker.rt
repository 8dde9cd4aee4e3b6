// The walker, which runs a body by one plain walk over its code. Each part answers in a register:
// why it stopped and what the body returned are kept in `local`.
#![tactic(auto, using(crate::proofs::Rulesets::walking))]

ghost use Rattle.std.specs.Prelude.{◌≡◌, ◌&&◌, ◌≤◌, ◌<◌, [], true, ℕ, IfOk, OnOk, OnErr, IfErr};
ghost use Rattle.std.specs.Prelude.{length, replicate, slice_index};
ghost use Rattle.ocr_base.specs.Count.{Rose};
ghost use Rattle.ocr_body_meaning.specs.Behaviour.{Behaviour, Ends, Stops, IsTrace};
ghost use Rattle.ocr_body_meaning.specs.Body.{behaviour, says};
ghost use Rattle.ocr_body_meaning.specs.Meaning.{nothing_given};
ghost use Rattle.ocr_body_meaning.specs.Meaning as meaning;
ghost use Rattle.ocr_body_code.specs.Checked.{checked_tree};
ghost use Rattle.ocr_body_code.specs.Code.{has_function, arguments_at};
ghost use Rattle.ocr_body_steps.specs.Given.{given_of};
ghost use Rattle.ocr_body_steps.specs.Local.{Fits, KeepsLocal, state_in};
ghost use Rattle.ocr_body_steps.specs.Plain.{is_expr_in, are_args_in, IsFirstIn};
ghost use Rattle.ocr_body_steps.specs.Api.{Begins, BeginsValue, BeginsGiven, FindsGiven, IsListed};
ghost use Rattle.ocr_body_steps.specs.Api.{StoppedBy};
ghost use Rattle.ocr_body_steps.specs.Steps.{next_of, next_after, GoesOn, IsCause, StillFits, Yields};
ghost use Rattle.ocr_body.specs.Walker.{Leads, is_call_in, is_stmt_in, are_stmts_in, expr_part};
ghost use Rattle.ocr_body.specs.Walker.{call_part, coded_part, args_part, paid_part, list_part};
ghost use Rattle.ocr_body.specs.Walker.{stmt_part, stmts_part, loop_part};

use ocr_base::{NoMemory, Seq};
use ocr_body_code::{ArgCode, CallCode, Checked, ExprCode, Named, StmtCode};
use ocr_body_meaning::BodyStop;
use ocr_body_steps::plain::{NONE_LEFT, dependence, leaf, plain};
use ocr_body_steps::{
    Api, Flow, Frame, Given, Halt, Local, apply, assign, load, make, operate, pay, plain_all,
    print, read, stopped, store,
};
use ocr_guid::Guid;
use ocr_program_tree::{BinaryOp, CallName};
use std::alloc::Global;

// The value of an expression that makes a call or stops, or any other.
#[cycle(eval)]
#[inline(never)]
fn eval<A: Api>(frame: &Frame, expr: &ExprCode, local: &mut Local, api: &mut A) -> Result<u64, Halt>
    requires ready { A.is_ready api.old }
    requires fits { Fits frame.now local.old }
    requires placed { is_expr_in frame.now expr.now ≡ true }
    requires begins { BeginsValue (next_of A.Api api.old)
        (expr_part frame.now expr.now (A.holds api.old) local.old) }
    ensures goes_on { GoesOn A.Api api.old api.new }
    ensures still_fits { StillFits frame.now local.old local.new }
    ensures ok { IfOk result (λ v. Yields A.Api api.old api.new
        (expr_part frame.now expr.now (A.holds api.old) local.old) v frame.now local.new) }
    ensures err { OnErr result (IsCause A.Api api.old api.new local.new.stop) }
{
    if let ExprCode::Invoke(call) = expr {
        return invoke(frame, call, local, api);
    }
    pay(local)?;
    match expr {
        ExprCode::Number(n) => Ok(*n),
        ExprCode::Constant(constant) => Ok(constant.value()),
        ExprCode::Variable(place) => Ok(read(frame, *place, local)),
        ExprCode::Paramc => Ok(frame.params.len() as u64),
        ExprCode::Depc => Ok(frame.deps.len() as u64),
        ExprCode::LastCode => Ok(local.code),
        ExprCode::Paramv(index) => {
            let index = eval(frame, index, local, api)?;
            Ok(parameter_at(frame, index, local)?)
        }
        ExprCode::Depv(index) => {
            let index = eval(frame, index, local, api)?;
            Ok(dependence_at(frame, index, local)?)
        }
        ExprCode::Unary(op, of) => Ok(apply(*op, operand(frame, of, local, api)?)),
        ExprCode::Binary(op, left, right) => {
            let x = operand(frame, left, local, api)?;
            let y = operand(frame, right, local, api)?; // after the left one
            Ok(combine(*op, x, y, local)?)
        }
        ExprCode::WithNumber(op, place, number) => {
            pay(local)?; // for the variable
            pay(local)?; // for the number
            combine(*op, read(frame, *place, local), *number, local)
        }
        ExprCode::WithVariable(op, place, other) => {
            pay(local)?; // for each variable
            pay(local)?;
            let x = read(frame, *place, local);
            combine(*op, x, read(frame, *other, local), local)
        }
        ExprCode::Invoke(_) => unreachable!(),
    }
}

// The value of an operand of an operator. A variable and a call have no other function between.
#[cycle(eval)]
#[inline(always)]
fn operand<A: Api>(
    frame: &Frame,
    expr: &ExprCode,
    local: &mut Local,
    api: &mut A,
) -> Result<u64, Halt>
    requires ready { A.is_ready api.old }
    requires fits { Fits frame.now local.old }
    requires placed { is_expr_in frame.now expr.now ≡ true }
    requires begins { BeginsValue (next_of A.Api api.old)
        (expr_part frame.now expr.now (A.holds api.old) local.old) }
    ensures goes_on { GoesOn A.Api api.old api.new }
    ensures still_fits { StillFits frame.now local.old local.new }
    ensures ok { IfOk result (λ v. Yields A.Api api.old api.new
        (expr_part frame.now expr.now (A.holds api.old) local.old) v frame.now local.new) }
    ensures err { OnErr result (IsCause A.Api api.old api.new local.new.stop) }
{
    if let ExprCode::Invoke(call) = expr {
        return invoke(frame, call, local, api);
    }
    if let ExprCode::Variable(place) = expr {
        pay(local)?;
        return Ok(read(frame, *place, local));
    }
    eval(frame, expr, local, api)
}

// A call, which is a node of its own. A load of what stands in leaves is done here, without a call
// of any part of the walker; the others have functions with the same arguments, so that each goes
// on to the next by a jump.
#[cycle(eval)]
#[inline(never)]
fn invoke<A: Api>(
    frame: &Frame,
    call: &CallCode,
    local: &mut Local,
    api: &mut A,
) -> Result<u64, Halt>
    requires ready { A.is_ready api.old }
    requires fits { Fits frame.now local.old }
    requires placed { is_call_in frame.now call.now ≡ true }
    requires begins { BeginsValue (next_of A.Api api.old)
        (call_part frame.now call.now (A.holds api.old) local.old) }
    ensures goes_on { GoesOn A.Api api.old api.new }
    ensures still_fits { StillFits frame.now local.old local.new }
    ensures ok { IfOk result (λ v. Yields A.Api api.old api.new
        (call_part frame.now call.now (A.holds api.old) local.old) v frame.now local.new) }
    ensures err { OnErr result (IsCause A.Api api.old api.new local.new.stop) }
{
    let CallCode::Load(block, word) = call else {
        if let CallCode::Coded(name, args) = call {
            return coded(frame, *name, args, local, api);
        }
        return invoke_store(frame, call, local, api);
    };
    if local.fuel < 4 {
        return invoke_by_parts(frame, call, local, api);
    }
    let block = dependence(frame, block, local.fuel - 1, local);
    if block.left == NONE_LEFT {
        return invoke_by_parts(frame, call, local, api);
    }
    let word = leaf(frame, word, block.left, local);
    if word.left == NONE_LEFT {
        return invoke_by_parts(frame, call, local, api);
    }
    local.fuel = word.left;
    load(frame, block.value, word.value, local, api)
}

// A store of what stands in leaves, which is done as such a load, or any other call.
#[cycle(eval)]
#[inline(never)]
fn invoke_store<A: Api>(
    frame: &Frame,
    call: &CallCode,
    local: &mut Local,
    api: &mut A,
) -> Result<u64, Halt>
    requires ready { A.is_ready api.old }
    requires fits { Fits frame.now local.old }
    requires placed { is_call_in frame.now call.now ≡ true }
    requires begins { BeginsValue (next_of A.Api api.old)
        (call_part frame.now call.now (A.holds api.old) local.old) }
    ensures goes_on { GoesOn A.Api api.old api.new }
    ensures still_fits { StillFits frame.now local.old local.new }
    ensures ok { IfOk result (λ v. Yields A.Api api.old api.new
        (call_part frame.now call.now (A.holds api.old) local.old) v frame.now local.new) }
    ensures err { OnErr result (IsCause A.Api api.old api.new local.new.stop) }
{
    let CallCode::Store(block, word, value) = call else {
        return invoke_by_parts(frame, call, local, api);
    };
    if local.fuel < 5 {
        return invoke_by_parts(frame, call, local, api);
    }
    let block = dependence(frame, block, local.fuel - 1, local);
    if block.left == NONE_LEFT {
        return invoke_by_parts(frame, call, local, api);
    }
    let word = leaf(frame, word, block.left, local);
    if word.left == NONE_LEFT {
        return invoke_by_parts(frame, call, local, api);
    }
    let value = leaf(frame, value, word.left, local);
    if value.left == NONE_LEFT {
        return invoke_by_parts(frame, call, local, api);
    }
    local.fuel = value.left;
    store(frame, block.value, word.value, value.value, local, api)
}

// Any call, one part after another.
#[cycle(eval)]
#[inline(never)]
fn invoke_by_parts<A: Api>(
    frame: &Frame,
    call: &CallCode,
    local: &mut Local,
    api: &mut A,
) -> Result<u64, Halt>
    requires ready { A.is_ready api.old }
    requires fits { Fits frame.now local.old }
    requires placed { is_call_in frame.now call.now ≡ true }
    requires begins { BeginsValue (next_of A.Api api.old)
        (call_part frame.now call.now (A.holds api.old) local.old) }
    ensures goes_on { GoesOn A.Api api.old api.new }
    ensures still_fits { StillFits frame.now local.old local.new }
    ensures ok { IfOk result (λ v. Yields A.Api api.old api.new
        (call_part frame.now call.now (A.holds api.old) local.old) v frame.now local.new) }
    ensures err { OnErr result (IsCause A.Api api.old api.new local.new.stop) }
{
    match call {
        CallCode::Load(block, word) => {
            pay(local)?;
            let block = find(frame, block, local, api)?;
            let word = find(frame, word, local, api)?;
            load(frame, block, word, local, api)
        }
        CallCode::Store(block, word, value) => {
            pay(local)?;
            let block = find(frame, block, local, api)?;
            let word = find(frame, word, local, api)?;
            let value = find(frame, value, local, api)?;
            store(frame, block, word, value, local, api)
        }
        CallCode::Coded(name, args) => coded(frame, *name, args, local, api),
    }
}

// Any other call: what its arguments are is kept in memory.
#[cycle(eval)]
#[inline(never)]
fn coded<A: Api>(
    frame: &Frame,
    name: CallName,
    args: &ArgCode,
    local: &mut Local,
    api: &mut A,
) -> Result<u64, Halt>
    requires ready { A.is_ready api.old }
    requires fits { Fits frame.now local.old }
    requires named { has_function name (arguments_at frame.now.names.now args.now) ≡ true }
    requires placed { are_args_in frame.now args.now ≡ true }
    requires begins { BeginsValue (next_of A.Api api.old)
        (coded_part frame.now name args.now (A.holds api.old) local.old) }
    ensures goes_on { GoesOn A.Api api.old api.new }
    ensures still_fits { StillFits frame.now local.old local.new }
    ensures ok { IfOk result (λ v. Yields A.Api api.old api.new
        (coded_part frame.now name args.now (A.holds api.old) local.old) v frame.now local.new) }
    ensures err { OnErr result (IsCause A.Api api.old api.new local.new.stop) }
{
    pay(local)?;
    let mut given = Given::new(frame.alloc);
    let named = find_all(frame, args, &mut given, local, api)?;
    make(frame, name, args, named, &given, local, api)
}

// What the arguments of a call are, and the first name among them. Those that make no call and do
// not stop are found with their fuel in a register.
#[cycle(eval)]
#[inline(always)]
fn find_all<A: Api>(
    frame: &Frame,
    args: &ArgCode,
    given: &mut Given,
    local: &mut Local,
    api: &mut A,
) -> Result<Option<Named>, Halt>
    requires ready { A.is_ready api.old }
    requires fits { Fits frame.now local.old }
    requires placed { are_args_in frame.now args.now ≡ true }
    requires none { given_of given.old ≡ nothing_given }
    requires begins { BeginsGiven (next_of A.Api api.old)
        (args_part frame.now args.now given.old (A.holds api.old) local.old) }
    ensures goes_on { GoesOn A.Api api.old api.new }
    ensures still_fits { StillFits frame.now local.old local.new }
    ensures ok { OnOk result (FindsGiven (next_of A.Api api.old)
        (args_part frame.now args.now given.old (A.holds api.old) local.old) (given_of given.new)
        (state_in frame.now (A.holds api.new) local.new) (next_after A.Api api.old api.new)) }
    ensures first { IfOk result (λ named. IsFirstIn frame.now args.now named) }
    ensures err { OnErr result (IsCause A.Api api.old api.new local.new.stop) }
{
    let walked = plain_all(frame, args, given, local.fuel, local);
    if walked.left == NONE_LEFT {
        eval_anew(frame, args, given, local, api)?;
        return Ok(args.name());
    }
    local.fuel = walked.left;
    Ok(walked.named)
}

// The same of any arguments, whatever was found of them.
#[cycle(eval)]
#[inline(never)]
fn eval_anew<A: Api>(
    frame: &Frame,
    args: &ArgCode,
    given: &mut Given,
    local: &mut Local,
    api: &mut A,
) -> Result<(), Halt>
    requires ready { A.is_ready api.old }
    requires fits { Fits frame.now local.old }
    requires placed { are_args_in frame.now args.now ≡ true }
    requires begins { BeginsGiven (next_of A.Api api.old)
        (list_part frame.now args.now (A.holds api.old) local.old) }
    ensures goes_on { GoesOn A.Api api.old api.new }
    ensures still_fits { StillFits frame.now local.old local.new }
    ensures ok { OnOk result (FindsGiven (next_of A.Api api.old)
        (list_part frame.now args.now (A.holds api.old) local.old) (given_of given.new)
        (state_in frame.now (A.holds api.new) local.new) (next_after A.Api api.old api.new)) }
    ensures err { OnErr result (IsCause A.Api api.old api.new local.new.stop) }
{
    *given = Given::new(frame.alloc);
    eval_all(frame, args, given, local, api)
}

// What the arguments of a call are, from left to right.
#[cycle(eval)]
fn eval_all<A: Api>(
    frame: &Frame,
    args: &ArgCode,
    given: &mut Given,
    local: &mut Local,
    api: &mut A,
) -> Result<(), Halt>
    requires ready { A.is_ready api.old }
    requires fits { Fits frame.now local.old }
    requires placed { are_args_in frame.now args.now ≡ true }
    requires begins { BeginsGiven (next_of A.Api api.old)
        (args_part frame.now args.now given.old (A.holds api.old) local.old) }
    ensures goes_on { GoesOn A.Api api.old api.new }
    ensures still_fits { StillFits frame.now local.old local.new }
    ensures ok { OnOk result (FindsGiven (next_of A.Api api.old)
        (args_part frame.now args.now given.old (A.holds api.old) local.old) (given_of given.new)
        (state_in frame.now (A.holds api.new) local.new) (next_after A.Api api.old api.new)) }
    ensures err { OnErr result (IsCause A.Api api.old api.new local.new.stop) }
{
    match args {
        ArgCode::End => Ok(()),
        ArgCode::Name(_, rest) => eval_all(frame, rest, given, local, api),
        ArgCode::Value(value, rest) => {
            let value = find(frame, value, local, api)?;
            let Ok(()) = given.add_value(value) else {
                return Err(stopped(BodyStop::NoMemory, local))
            };
            eval_all(frame, rest, given, local, api)
        }
        ArgCode::List(list, rest) => {
            eval_list(frame, list, given, local, api)?;
            eval_all(frame, rest, given, local, api)
        }
    }
}

// A list among the arguments. The commonest has no item, and is done in place.
#[cycle(eval)]
#[inline(always)]
fn eval_list<A: Api>(
    frame: &Frame,
    list: &ArgCode,
    given: &mut Given,
    local: &mut Local,
    api: &mut A,
) -> Result<(), Halt>
    requires ready { A.is_ready api.old }
    requires fits { Fits frame.now local.old }
    requires placed { are_args_in frame.now list.now ≡ true }
    requires begins { BeginsGiven (next_of A.Api api.old)
        (list_part frame.now list.now (A.holds api.old) local.old) }
    ensures goes_on { GoesOn A.Api api.old api.new }
    ensures still_fits { StillFits frame.now local.old local.new }
    ensures ok { OnOk result (IsListed (next_of A.Api api.old)
        (list_part frame.now list.now (A.holds api.old) local.old)
        (given_of given.old) (given_of given.new)
        (state_in frame.now (A.holds api.new) local.new) (next_after A.Api api.old api.new)) }
    ensures err { OnErr result (IsCause A.Api api.old api.new local.new.stop) }
{
    match list {
        ArgCode::End => {
            let Ok(()) = given.add_list(Seq::new(frame.alloc)) else {
                return Err(stopped(BodyStop::NoMemory, local))
            };
            Ok(())
        }
        _ => eval_items(frame, list, given, local, api),
    }
}

// The items of a list. What they are is kept apart here, so that `eval_all` needs no room for it.
#[cycle(eval)]
#[inline(never)]
fn eval_items<A: Api>(
    frame: &Frame,
    list: &ArgCode,
    given: &mut Given,
    local: &mut Local,
    api: &mut A,
) -> Result<(), Halt>
    requires ready { A.is_ready api.old }
    requires fits { Fits frame.now local.old }
    requires placed { are_args_in frame.now list.now ≡ true }
    requires begins { BeginsGiven (next_of A.Api api.old)
        (list_part frame.now list.now (A.holds api.old) local.old) }
    ensures goes_on { GoesOn A.Api api.old api.new }
    ensures still_fits { StillFits frame.now local.old local.new }
    ensures ok { OnOk result (IsListed (next_of A.Api api.old)
        (list_part frame.now list.now (A.holds api.old) local.old)
        (given_of given.old) (given_of given.new)
        (state_in frame.now (A.holds api.new) local.new) (next_after A.Api api.old api.new)) }
    ensures err { OnErr result (IsCause A.Api api.old api.new local.new.stop) }
{
    let mut inner = Given::new(frame.alloc);
    eval_all(frame, list, &mut inner, local, api)?;
    let Ok(items) = inner.as_list(frame.alloc) else {
        return Err(stopped(BodyStop::NoMemory, local))
    };
    let Ok(()) = given.add_list(items) else {
        return Err(stopped(BodyStop::NoMemory, local))
    };
    Ok(())
}

// The value of an expression. The commonest form is done in place.
#[cycle(eval)]
#[inline(always)]
fn find<A: Api>(frame: &Frame, expr: &ExprCode, local: &mut Local, api: &mut A) -> Result<u64, Halt>
    requires ready { A.is_ready api.old }
    requires fits { Fits frame.now local.old }
    requires placed { is_expr_in frame.now expr.now ≡ true }
    requires begins { BeginsValue (next_of A.Api api.old)
        (expr_part frame.now expr.now (A.holds api.old) local.old) }
    ensures goes_on { GoesOn A.Api api.old api.new }
    ensures still_fits { StillFits frame.now local.old local.new }
    ensures ok { IfOk result (λ v. Yields A.Api api.old api.new
        (expr_part frame.now expr.now (A.holds api.old) local.old) v frame.now local.new) }
    ensures err { OnErr result (IsCause A.Api api.old api.new local.new.stop) }
{
    if let ExprCode::WithNumber(op, place, number) = expr {
        if local.fuel >= 3 {
            if let Ok(value) = operate(*op, read(frame, *place, local), *number) {
                local.fuel -= 3;
                return Ok(value);
            }
        }
    }
    find_other(frame, expr, local, api)
}

// The value of an expression of any form. One that makes no call and does not stop is found with
// its fuel in a register.
#[cycle(eval)]
#[inline(always)]
fn find_other<A: Api>(
    frame: &Frame,
    expr: &ExprCode,
    local: &mut Local,
    api: &mut A,
) -> Result<u64, Halt>
    requires ready { A.is_ready api.old }
    requires fits { Fits frame.now local.old }
    requires placed { is_expr_in frame.now expr.now ≡ true }
    requires begins { BeginsValue (next_of A.Api api.old)
        (expr_part frame.now expr.now (A.holds api.old) local.old) }
    ensures goes_on { GoesOn A.Api api.old api.new }
    ensures still_fits { StillFits frame.now local.old local.new }
    ensures ok { IfOk result (λ v. Yields A.Api api.old api.new
        (expr_part frame.now expr.now (A.holds api.old) local.old) v frame.now local.new) }
    ensures err { OnErr result (IsCause A.Api api.old api.new local.new.stop) }
{
    if let ExprCode::Invoke(call) = expr {
        return invoke(frame, call, local, api);
    }
    let found = plain(frame, expr, local.fuel, local);
    if found.left == NONE_LEFT {
        return eval(frame, expr, local, api);
    }
    local.fuel = found.left;
    Ok(found.value)
}

// Pays a unit and then finds the value of an expression, as a statement or a test of a loop begins.
// One test of the fuel is enough for both in the commonest form.
#[inline(always)]
fn find_paid<A: Api>(
    frame: &Frame,
    expr: &ExprCode,
    local: &mut Local,
    api: &mut A,
) -> Result<u64, Halt>
    requires ready { A.is_ready api.old }
    requires fits { Fits frame.now local.old }
    requires placed { is_expr_in frame.now expr.now ≡ true }
    requires begins { BeginsValue (next_of A.Api api.old)
        (paid_part frame.now expr.now (A.holds api.old) local.old) }
    ensures goes_on { GoesOn A.Api api.old api.new }
    ensures still_fits { StillFits frame.now local.old local.new }
    ensures less { OnOk result (local.new.fuel < local.old.fuel) }
    ensures ok { IfOk result (λ v. Yields A.Api api.old api.new
        (paid_part frame.now expr.now (A.holds api.old) local.old) v frame.now local.new) }
    ensures err { OnErr result (IsCause A.Api api.old api.new local.new.stop) }
{
    if local.fuel < 4 {
        return pay_and_find(frame, expr, local, api);
    }
    if let ExprCode::WithNumber(op, place, number) = expr {
        if let Ok(value) = operate(*op, read(frame, *place, local), *number) {
            local.fuel -= 4;
            return Ok(value);
        }
    }
    pay(local)?;
    find_other(frame, expr, local, api)
}

// The same where the fuel may not be enough for both.
#[inline(never)]
fn pay_and_find<A: Api>(
    frame: &Frame,
    expr: &ExprCode,
    local: &mut Local,
    api: &mut A,
) -> Result<u64, Halt>
    requires ready { A.is_ready api.old }
    requires fits { Fits frame.now local.old }
    requires placed { is_expr_in frame.now expr.now ≡ true }
    requires begins { BeginsValue (next_of A.Api api.old)
        (paid_part frame.now expr.now (A.holds api.old) local.old) }
    ensures goes_on { GoesOn A.Api api.old api.new }
    ensures still_fits { StillFits frame.now local.old local.new }
    ensures less { OnOk result (local.new.fuel < local.old.fuel) }
    ensures ok { IfOk result (λ v. Yields A.Api api.old api.new
        (paid_part frame.now expr.now (A.holds api.old) local.old) v frame.now local.new) }
    ensures err { OnErr result (IsCause A.Api api.old api.new local.new.stop) }
{
    pay(local)?;
    find_other(frame, expr, local, api)
}

// A parameter by its index, or a stop for an index past the end.
fn parameter_at(frame: &Frame, index: u64, local: &mut Local) -> Result<u64, Halt>
    ensures keeps { KeepsLocal local.old local.new }
    ensures within { OnOk result (index < length frame.now.params.now) }
    ensures ok { IfOk result (λ v. v ≡ slice_index frame.now.params.now index) }
    ensures past { OnErr result (length frame.now.params.now ≤ index) }
    ensures stop { OnErr result (local.new.stop ≡ BodyStop.BadIndex) }
{
    if index >= frame.params.len() as u64 {
        return Err(stopped(BodyStop::BadIndex, local));
    }
    Ok(frame.params[index as usize])
}

// A dependence by its index, or a stop for an index past the end.
fn dependence_at(frame: &Frame, index: u64, local: &mut Local) -> Result<u64, Halt>
    ensures keeps { KeepsLocal local.old local.new }
    ensures within { OnOk result (index < length frame.now.deps.now) }
    ensures ok { IfOk result (λ v. v ≡ slice_index frame.now.deps.now index) }
    ensures past { OnErr result (length frame.now.deps.now ≤ index) }
    ensures stop { OnErr result (local.new.stop ≡ BodyStop.BadIndex) }
{
    if index >= frame.deps.len() as u64 {
        return Err(stopped(BodyStop::BadIndex, local));
    }
    let dependence = frame.deps[index as usize];
    Ok(dependence.0)
}

// The value of an operator between two values, or a stop for a divisor 0.
fn combine(op: BinaryOp, x: u64, y: u64, local: &mut Local) -> Result<u64, Halt>
    ensures keeps { KeepsLocal local.old local.new }
    ensures ok { IfOk result (λ v. (k : ℕ → Behaviour) → meaning.binary_step op x y k ≡ k v) }
    ensures err { OnErr result ((k : ℕ → Behaviour)
        → meaning.binary_step op x y k ≡ Stops local.new.stop) }
{
    match operate(op, x, y) {
        Ok(value) => Ok(value),
        Err(stop) => Err(stopped(stop, local)),
    }
}

// Runs a statement.
#[cycle(exec)]
fn exec<A: Api>(
    frame: &Frame,
    step: &StmtCode,
    local: &mut Local,
    api: &mut A,
) -> Result<Flow, Halt>
    requires ready { A.is_ready api.old }
    requires fits { Fits frame.now local.old }
    requires placed { is_stmt_in frame.now step.now ≡ true }
    requires begins { Begins (next_of A.Api api.old)
        (stmt_part frame.now step.now (A.holds api.old) local.old) }
    ensures goes_on { GoesOn A.Api api.old api.new }
    ensures still_fits { StillFits frame.now local.old local.new }
    ensures ok { IfOk result (λ flow. Leads A.Api api.old api.new
        (stmt_part frame.now step.now (A.holds api.old) local.old) flow frame.now local.new) }
    ensures err { OnErr result (IsCause A.Api api.old api.new local.new.stop) }
{
    match step {
        StmtCode::While(test, body) => repeat(frame, test, body, local, api),
        StmtCode::Let(place, value) | StmtCode::Assign(place, value) => {
            let value = find_paid(frame, value, local, api)?;
            assign(frame, *place, value, local, api);
            Ok(Flow::Next)
        }
        StmtCode::If(test, yes, no) => {
            let value = find_paid(frame, test, local, api)?;
            if value == 0 {
                exec_all(frame, no, local, api)
            } else {
                exec_all(frame, yes, local, api)
            }
        }
        StmtCode::Print(value) => {
            let value = find_paid(frame, value, local, api)?;
            print(frame, value, local, api)?;
            Ok(Flow::Next)
        }
        StmtCode::Return(value) => {
            let value = find_paid(frame, value, local, api)?;
            local.returned = Guid(value);
            Ok(Flow::Returned)
        }
        StmtCode::Invoke(call) => {
            pay(local)?;
            invoke(frame, call, local, api)?;
            Ok(Flow::Next)
        }
    }
}

// Runs a loop.
#[cycle(exec)]
fn repeat<A: Api>(
    frame: &Frame,
    test: &ExprCode,
    steps: &[StmtCode],
    local: &mut Local,
    api: &mut A,
) -> Result<Flow, Halt>
    requires ready { A.is_ready api.old }
    requires fits { Fits frame.now local.old }
    requires placed { (is_expr_in frame.now test.now && are_stmts_in frame.now steps.now) ≡ true }
    requires begins { Begins (next_of A.Api api.old)
        (loop_part frame.now test.now steps.now (A.holds api.old) local.old) }
    ensures goes_on { GoesOn A.Api api.old api.new }
    ensures still_fits { StillFits frame.now local.old local.new }
    ensures ok { IfOk result (λ flow. Leads A.Api api.old api.new
        (loop_part frame.now test.now steps.now (A.holds api.old) local.old)
        flow frame.now local.new) }
    ensures err { OnErr result (IsCause A.Api api.old api.new local.new.stop) }
{
    loop {
        let value = find_paid(frame, test, local, api)?; // each test takes one unit more
        if value == 0 {
            return Ok(Flow::Next);
        }
        if let Flow::Returned = exec_all(frame, steps, local, api)? {
            return Ok(Flow::Returned);
        }
    }
}

// Runs statements one after another.
#[cycle(exec)]
fn exec_all<A: Api>(
    frame: &Frame,
    steps: &[StmtCode],
    local: &mut Local,
    api: &mut A,
) -> Result<Flow, Halt>
    requires ready { A.is_ready api.old }
    requires fits { Fits frame.now local.old }
    requires placed { are_stmts_in frame.now steps.now ≡ true }
    requires begins { Begins (next_of A.Api api.old)
        (stmts_part frame.now steps.now (A.holds api.old) local.old) }
    ensures goes_on { GoesOn A.Api api.old api.new }
    ensures still_fits { StillFits frame.now local.old local.new }
    ensures ok { IfOk result (λ flow. Leads A.Api api.old api.new
        (stmts_part frame.now steps.now (A.holds api.old) local.old) flow frame.now local.new) }
    ensures err { OnErr result (IsCause A.Api api.old api.new local.new.stop) }
{
    for step in steps {
        if let Flow::Returned = exec(frame, step, local, api)? {
            return Ok(Flow::Returned);
        }
    }
    Ok(Flow::Next)
}

// As many zeros.
fn zeros(alloc: Global, count: usize) -> Result<Vec<u64>, NoMemory>
    ensures { IfOk result (λ values. values.items ≡ replicate count 0) }
{
    Ok(Vec::from_elem(alloc, 0, count)?)
}

/// Runs a body to its end. It makes the calls that the body's meaning says, in their order, and
/// ends as it says; `Closed` comes only where the run was found closed in this call, and any other
/// stop but want of memory exactly where the body says it next. Nothing was stored before it; at
/// its end the Api holds what the meaning says that the body holds, so the words that were stored
/// in `Ew` are its private writes.
pub fn walk<A: Api>(
    alloc: Global,
    program: &Checked,
    function: u32,
    params: &[u64],
    deps: &[Guid],
    fuel: u64,
    api: &mut A,
) -> Result<Guid, BodyStop>
    requires ready { A.is_ready api.old }
    requires exists { (0 < function) × (function ≤ length (checked_tree program.now)) }
    requires serves { A.serves api.old ≡ record {
      program = checked_tree program.now;
      function = function;
      params = params.now;
      depv = deps.now;
      holds = A.holds api.old;
      fuel = fuel;
    } }
    requires fresh { A.log api.old ≡ [] }
    ensures ready { A.is_ready api.new }
    ensures serves { A.serves api.new ≡ A.serves api.old }
    ensures kept { A.kept api.new ≡ A.kept api.old }
    ensures trace { IsTrace (behaviour (A.serves api.old)) (A.log api.new) }
    ensures ok { IfOk result (λ g.
        says (A.serves api.old) (A.log api.new) ≡ Ends g (A.holds api.new)) }
    ensures err { IfErr result (StoppedBy (says (A.serves api.old) (A.log api.new))
        (Rose (A.closed api.old) (A.closed api.new))) }
    ensures later { A.closed api.old ≤ A.closed api.new }
{
    let code = program.function(function);
    let values = zeros(alloc, code.names.len())?;
    let mut local = Local {
        fuel,
        code: 0,
        values,
        stop: BodyStop::NoMemory,
        returned: Guid::NULL,
    };
    let frame = Frame {
        alloc,
        program,
        params,
        deps,
        names: &code.names,
    };
    let Ok(flow) = exec_all(&frame, &code.body, &mut local, api) else {
        return Err(local.stop)
    };
    match flow {
        Flow::Next => Ok(Guid::NULL),
        Flow::Returned => Ok(local.returned),
    }
}

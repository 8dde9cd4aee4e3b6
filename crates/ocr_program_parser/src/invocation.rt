// Makes a call of its name and its arguments.
ghost use Rattle.std.specs.Prelude.{◌≡◌, ◌∷◌, [], IfOk, true};
ghost use Rattle.ocr_program_tree.specs.Tree.{empty, value, list, named};
ghost use Rattle.ocr_program_tree.specs.View.{expression_of, members_of, output_of};
ghost use Rattle.ocr_program_grammar.specs.Shape.{shape};
ghost use Rattle.ocr_program_grammar.specs.declared.argument_kind.ArgumentKind.TheVariants as slot;
ghost use Rattle.ocr_program_parser.specs.Fits.{fits};
ghost use Rattle.ocr_program_parser.specs.View.{args_of, in_order, argument_onto, Invokes};

use crate::stack::Arg;
use ocr_program_tree::{CallName, Expr, Invoke, Name};
use std::alloc::{AllocError, Global};

/// The arguments of a call in their order, from which one after another is taken.
#[derive(Drop)]
pub enum ParsedArguments {
    Nothing,
    Value(Box<Expr>, Box<ParsedArguments>),
    List(Vec<Expr>, Box<ParsedArguments>),
    Named(Name, Box<ParsedArguments>),
}

fn onto(alloc: Global, arg: Arg, rest: ParsedArguments) -> Result<ParsedArguments, AllocError>
    ensures { IfOk result (λ args. in_order args ≡ argument_onto arg (in_order rest)) }
{
    let rest = Box::new(alloc, rest)?;
    match arg {
        Arg::Value(value) => Ok(ParsedArguments::Value(value, rest)),
        Arg::List(values) => Ok(ParsedArguments::List(values, rest)),
        Arg::Named(name) => Ok(ParsedArguments::Named(name, rest)),
    }
}

#[tactic(auto, using(crate::proofs::Lists::args_last, crate::proofs::Joined::with_none))]
fn ordered(alloc: Global, args: Vec<Arg>) -> Result<ParsedArguments, AllocError>
    ensures { IfOk result (λ parsed. in_order parsed ≡ args_of args.items) }
{
    let mut args = args;
    let mut parsed = ParsedArguments::Nothing;
    while let Some(arg) = args.pop() {
        parsed = onto(alloc, arg, parsed)?;
    }
    Ok(parsed)
}

fn one(args: ParsedArguments) -> Box<Expr>
    requires { fits (slot.Value ∷ []) (in_order args) ≡ true }
    ensures { in_order args ≡ value (expression_of result.value) empty }
{
    let ParsedArguments::Value(first, rest) = args else {
        unreachable!()
    };
    let ParsedArguments::Nothing = Box::into_inner(rest) else {
        unreachable!()
    };
    first
}

fn two(args: ParsedArguments) -> (Box<Expr>, Box<Expr>)
    requires { fits (slot.Value ∷ slot.Value ∷ []) (in_order args) ≡ true }
    ensures { in_order args
        ≡ value (expression_of result.0.value) (value (expression_of result.1.value) empty) }
{
    let ParsedArguments::Value(first, rest) = args else {
        unreachable!()
    };
    (first, one(Box::into_inner(rest)))
}

fn three(args: ParsedArguments) -> (Box<Expr>, Box<Expr>, Box<Expr>)
    requires { fits (slot.Value ∷ slot.Value ∷ slot.Value ∷ []) (in_order args) ≡ true }
    ensures { in_order args
        ≡ value (expression_of result.0.value) (value (expression_of result.1.value)
        (value (expression_of result.2.value) empty)) }
{
    let ParsedArguments::Value(first, rest) = args else {
        unreachable!()
    };
    let (second, third) = two(Box::into_inner(rest));
    (first, second, third)
}

fn four(args: ParsedArguments) -> (Box<Expr>, Box<Expr>, Box<Expr>, Box<Expr>)
    requires { fits (slot.Value ∷ slot.Value ∷ slot.Value ∷ slot.Value ∷ [])
        (in_order args) ≡ true }
    ensures { in_order args
        ≡ value (expression_of result.0.value) (value (expression_of result.1.value)
        (value (expression_of result.2.value) (value (expression_of result.3.value) empty))) }
{
    let ParsedArguments::Value(first, rest) = args else {
        unreachable!()
    };
    let (second, third, fourth) = three(Box::into_inner(rest));
    (first, second, third, fourth)
}

fn event_with_params(args: ParsedArguments) -> Invoke
    requires { fits (shape CallName.EventCreateParams) (in_order args) ≡ true }
    ensures { Invokes result CallName.EventCreateParams (in_order args) }
{
    let ParsedArguments::Value(kind, rest) = args else {
        unreachable!()
    };
    let (flags, max_gen, nb_sat, nb_deps) = four(Box::into_inner(rest));
    Invoke::EventCreateParams {
        kind,
        flags,
        max_gen,
        nb_sat,
        nb_deps,
    }
}

fn satisfy_slot(args: ParsedArguments) -> Invoke
    requires { fits (shape CallName.SatisfySlot) (in_order args) ≡ true }
    ensures { Invokes result CallName.SatisfySlot (in_order args) }
{
    let (event, payload, slot) = three(args);
    Invoke::SatisfySlot {
        event,
        payload,
        slot,
    }
}

fn add_dependence(args: ParsedArguments) -> Invoke
    requires { fits (shape CallName.AddDependence) (in_order args) ≡ true }
    ensures { Invokes result CallName.AddDependence (in_order args) }
{
    let (source, target, slot, mode) = four(args);
    Invoke::AddDependence {
        source,
        target,
        slot,
        mode,
    }
}

fn template_create(args: ParsedArguments) -> Invoke
    requires { fits (shape CallName.TemplateCreate) (in_order args) ≡ true }
    ensures { Invokes result CallName.TemplateCreate (in_order args) }
{
    let ParsedArguments::Named(function, rest) = args else {
        unreachable!()
    };
    let (paramc, depc) = two(Box::into_inner(rest));
    Invoke::TemplateCreate {
        function,
        paramc,
        depc,
    }
}

// The flags of a new EDT, and the variable of its output event.
fn flags(args: ParsedArguments) -> (Box<Expr>, Option<Name>)
    requires { fits (slot.FlagsAndOutput ∷ []) (in_order args) ≡ true }
    ensures { in_order args ≡ value (expression_of result.0.value) (output_of result.1) }
{
    let ParsedArguments::Value(flags, rest) = args else {
        unreachable!()
    };
    match Box::into_inner(rest) {
        ParsedArguments::Nothing => (flags, None),
        ParsedArguments::Named(name, rest) => {
            let ParsedArguments::Nothing = Box::into_inner(rest) else {
                unreachable!()
            };
            (flags, Some(name))
        }
        _ => unreachable!(),
    }
}

fn new_edt(
    template: Box<Expr>,
    params: (Box<Expr>, Vec<Expr>),
    deps: (Box<Expr>, Vec<Expr>),
    last: (Box<Expr>, Option<Name>),
) -> Invoke
    ensures { Invokes result CallName.EdtCreate
        (value (expression_of template.value) (value (expression_of params.0.value)
        (list (members_of params.1.items) (value (expression_of deps.0.value)
        (list (members_of deps.1.items) (value (expression_of last.0.value)
        (output_of last.1))))))) }
{
    Invoke::EdtCreate {
        template,
        paramc: params.0,
        params: params.1,
        depc: deps.0,
        deps: deps.1,
        flags: last.0,
        output: last.1,
    }
}

fn edt_create(args: ParsedArguments) -> Invoke
    requires { fits (shape CallName.EdtCreate) (in_order args) ≡ true }
    ensures { Invokes result CallName.EdtCreate (in_order args) }
{
    let ParsedArguments::Value(template, rest) = args else {
        unreachable!()
    };
    let ParsedArguments::Value(paramc, rest) = Box::into_inner(rest) else {
        unreachable!()
    };
    let ParsedArguments::List(params, rest) = Box::into_inner(rest) else {
        unreachable!()
    };
    let ParsedArguments::Value(depc, rest) = Box::into_inner(rest) else {
        unreachable!()
    };
    let ParsedArguments::List(deps, rest) = Box::into_inner(rest) else {
        unreachable!()
    };
    let (flags, output) = flags(Box::into_inner(rest));
    new_edt(template, (paramc, params), (depc, deps), (flags, output))
}

fn store(args: ParsedArguments) -> Invoke
    requires { fits (shape CallName.Store) (in_order args) ≡ true }
    ensures { Invokes result CallName.Store (in_order args) }
{
    let (block, word, value) = three(args);
    Invoke::Store { block, word, value }
}

fn made(call: CallName, args: ParsedArguments) -> Invoke
    requires { fits (shape call) (in_order args) ≡ true }
    ensures { Invokes result call (in_order args) }
{
    match call {
        CallName::DbCreate => {
            let (length, flags) = two(args);
            Invoke::DbCreate { length, flags }
        }
        CallName::DbRelease => Invoke::DbRelease { block: one(args) },
        CallName::DbDestroy => Invoke::DbDestroy { block: one(args) },
        CallName::EventCreate => {
            let (kind, flags) = two(args);
            Invoke::EventCreate { kind, flags }
        }
        CallName::EventCreateParams => event_with_params(args),
        CallName::EventDestroy => Invoke::EventDestroy { event: one(args) },
        CallName::Satisfy => {
            let (event, payload) = two(args);
            Invoke::Satisfy { event, payload }
        }
        CallName::SatisfySlot => satisfy_slot(args),
        CallName::AddDependence => add_dependence(args),
        CallName::TemplateCreate => template_create(args),
        CallName::TemplateDestroy => Invoke::TemplateDestroy {
            template: one(args),
        },
        CallName::EdtCreate => edt_create(args),
        CallName::Shutdown => Invoke::Shutdown,
        CallName::Abort => Invoke::Abort { code: one(args) },
        CallName::Load => {
            let (block, word) = two(args);
            Invoke::Load { block, word }
        }
        CallName::Store => store(args),
    }
}

/// The call of this name with these arguments.
pub fn invoke(alloc: Global, call: CallName, args: Vec<Arg>) -> Result<Box<Invoke>, AllocError>
    requires { fits (shape call) (args_of args.items) ≡ true }
    ensures { IfOk result (λ i. Invokes i.value call (args_of args.items)) }
{
    let parsed = ordered(alloc, args)?;
    Ok(Box::new(alloc, made(call, parsed))?)
}

// The arguments of a call, one by one.
use crate::tree::{CallName, Expr, Invoke, Name};
use ocr_base::NoMemory;
use std::alloc::Global;

/// An argument of a call, as it is written.
#[derive(Clone, Copy)]
pub enum Argument<'a> {
    Value(&'a Expr),
    List(&'a [Expr]),
    /// The name of a function, or of the variable after `&`.
    Name(&'a Name),
}

impl Invoke {
    ghost use Rattle.std.specs.Prelude.{◌≡◌, All, IfOk};
    ghost use Rattle.ocr_program_tree.specs.Argument.{IsWithin, plain_of};
    ghost use Rattle.ocr_program_tree.specs.View.{arguments_of, name_of};
    ghost use Rattle.ocr_program_tree.specs.declared.tree.Invoke.{size-Invoke};

    /// The name of the call.
    pub fn name(&self) -> CallName
        ensures { result ≡ name_of self.now }
    {
        match self {
            Invoke::DbCreate { .. } => CallName::DbCreate,
            Invoke::DbRelease { .. } => CallName::DbRelease,
            Invoke::DbDestroy { .. } => CallName::DbDestroy,
            Invoke::EventCreate { .. } => CallName::EventCreate,
            Invoke::EventCreateParams { .. } => CallName::EventCreateParams,
            Invoke::EventDestroy { .. } => CallName::EventDestroy,
            Invoke::Satisfy { .. } => CallName::Satisfy,
            Invoke::SatisfySlot { .. } => CallName::SatisfySlot,
            Invoke::AddDependence { .. } => CallName::AddDependence,
            Invoke::TemplateCreate { .. } => CallName::TemplateCreate,
            Invoke::TemplateDestroy { .. } => CallName::TemplateDestroy,
            Invoke::EdtCreate { .. } => CallName::EdtCreate,
            Invoke::Shutdown => CallName::Shutdown,
            Invoke::Abort { .. } => CallName::Abort,
            Invoke::Load { .. } => CallName::Load,
            Invoke::Store { .. } => CallName::Store,
        }
    }

    /// The arguments in their order. Each is a smaller tree than the call.
    #[tactic(auto, using(crate::proofs::Rows::members_are))]
    pub fn arguments(&self, alloc: Global) -> Result<Vec<Argument<'_>>, NoMemory>
        ensures same { IfOk result (λ arguments. plain_of arguments.items ≡ arguments_of self.now) }
        ensures within { IfOk result (λ arguments.
            All (IsWithin (size-Invoke self.now)) arguments.items) }
    {
        use Argument::{List, Name, Value};

        match self {
            Invoke::Shutdown => Ok(Vec::new(alloc)),
            Invoke::DbRelease { block: value }
            | Invoke::DbDestroy { block: value }
            | Invoke::EventDestroy { event: value }
            | Invoke::TemplateDestroy { template: value }
            | Invoke::Abort { code: value } => Ok(vec![in alloc; Value(value)]?),
            Invoke::DbCreate {
                length: first,
                flags: second,
            }
            | Invoke::EventCreate {
                kind: first,
                flags: second,
            }
            | Invoke::Satisfy {
                event: first,
                payload: second,
            }
            | Invoke::Load {
                block: first,
                word: second,
            } => Ok(vec![in alloc; Value(first), Value(second)]?),
            Invoke::SatisfySlot {
                event: first,
                payload: second,
                slot: third,
            }
            | Invoke::Store {
                block: first,
                word: second,
                value: third,
            } => Ok(vec![in alloc; Value(first), Value(second), Value(third)]?),
            Invoke::AddDependence {
                source,
                target,
                slot,
                mode,
            } => Ok(vec![in alloc; Value(source), Value(target), Value(slot), Value(mode)]?),
            Invoke::EventCreateParams {
                kind,
                flags,
                max_gen,
                nb_sat,
                nb_deps,
            } => Ok(vec![in alloc;
                Value(kind),
                Value(flags),
                Value(max_gen),
                Value(nb_sat),
                Value(nb_deps),
            ]?),
            Invoke::TemplateCreate {
                function,
                paramc,
                depc,
            } => Ok(vec![in alloc; Name(function), Value(paramc), Value(depc)]?),
            Invoke::EdtCreate {
                template,
                paramc,
                params,
                depc,
                deps,
                flags,
                output,
            } => {
                let mut arguments = vec![in alloc;
                    Value(template),
                    Value(paramc),
                    List(params),
                    Value(depc),
                    List(deps),
                    Value(flags),
                ]?;
                let Some(variable) = output else {
                    return Ok(arguments)
                };
                arguments.push(Name(variable))?;
                Ok(arguments)
            }
        }
    }
}

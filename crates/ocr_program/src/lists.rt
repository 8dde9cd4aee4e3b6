// Lists: the token after the opening bracket of one.
ghost use Rattle.std.specs.Prelude.{◌≡◌, IfOk};
ghost use Rattle.ocr_program_parser.specs.Machine as machine;
ghost use Rattle.ocr_program_parser.specs.Marks.{is_close_square};
ghost use Rattle.ocr_program_parser.specs.View.{args_of, slots_after, site_of, position_of, state_if_any};

use crate::expressions::operand;
use ocr_program_grammar::Lexeme;
use ocr_program_parser::{Arg, CallSite, Position, Stack, State, Wanted, with_list};
use ocr_program_tree::CallName;
use std::alloc::{AllocError, Global};

/// Whether a list is empty.
fn closes_list(lexeme: &Lexeme) -> bool
    ensures { result ≡ is_close_square lexeme.now }
{
    match lexeme {
        Lexeme::CloseSquare => true,
        _ => false,
    }
}

/// The first token after the opening bracket of a list.
#[tactic(auto, using(ocr_program_parser::proofs::CallLemmas::after_pushed, crate::proofs::Marks::list_closes))]
pub fn list_start(
    alloc: Global,
    position: Position,
    call: CallName,
    args: Vec<Arg>,
    site: CallSite,
    lexeme: Lexeme,
) -> Result<Option<State>, AllocError>
    ensures { IfOk result (λ s. state_if_any s ≡ machine.list_start (position_of position) call
        (args_of args.items) (slots_after call args.items) (site_of site) lexeme) }
{
    if closes_list(&lexeme) {
        let args = with_list(args, Vec::new(alloc))?;
        return Ok(Some(State::InFunction(position, Wanted::AfterArgument(call, args, site))));
    }
    let first = Stack::Member(call, args, Vec::new(alloc), site);
    operand(alloc, position, first, lexeme)
}

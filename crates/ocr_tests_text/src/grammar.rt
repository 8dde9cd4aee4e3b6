// What stands between the brackets of a call, and what a symbol is: claims, proved by the contracts
// alone.
use ocr_program_grammar::{ArgumentKind, Lexeme, shape, symbol};
use ocr_program_tree::{BinaryOp, CallName};

#[test]
fn a_satisfaction_has_an_event_and_a_payload(_rt: HostRuntime) {
    let kinds = shape(CallName::Satisfy);
    prove!(kinds.len() == 2);
    prove!(kinds[0] == ArgumentKind::Value && kinds[1] == ArgumentKind::Value);
}

#[test]
fn shifts_go_where_their_symbols_point(_rt: HostRuntime) {
    let (left, right) = (symbol(b"<<"), symbol(b">>"));
    prove!(matches!(left, Some(Lexeme::Operator(BinaryOp::Shl))));
    prove!(matches!(right, Some(Lexeme::Operator(BinaryOp::Shr))));
}

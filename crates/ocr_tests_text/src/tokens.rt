use ocr_text::{LexFault, Token, TokenKind, TokensStop, number_value, tokens};
use std::alloc::Global;

fn token(kind: TokenKind, start: usize, end: usize) -> Token {
    Token { kind, start, end }
}

fn is_cut_into(alloc: Global, text: &str, wanted: &[Token]) -> bool {
    match tokens(alloc, text.as_bytes()) {
        Ok(cut) => cut.as_slice() == wanted,
        Err(_) => false,
    }
}

#[test]
fn cuts_texts(rt: HostRuntime) {
    let alloc = rt.alloc();
    let (number, name, symbol) = (TokenKind::Number, TokenKind::Name, TokenKind::Symbol);
    let nothing: [Token; 0] = [];
    assert!(rt; is_cut_into(alloc, "", nothing.as_slice()));
    let operator = [token(name, 0, 2), token(symbol, 2, 4), token(number, 4, 5)];
    assert!(rt; is_cut_into(alloc, "a1<=2", operator.as_slice()));
    let symbols = [
        token(symbol, 0, 2),
        token(symbol, 2, 3),
        token(symbol, 3, 4),
    ];
    assert!(rt; is_cut_into(alloc, "<<=!", symbols.as_slice()));
    let digits = [token(number, 0, 1), token(name, 1, 2)];
    assert!(rt; is_cut_into(alloc, "1a", digits.as_slice()));
    let comment = [
        token(TokenKind::Comment, 0, 5),
        token(TokenKind::Blank, 5, 8),
        token(name, 8, 9),
    ];
    assert!(rt; is_cut_into(alloc, "#a \0#\n\t _", comment.as_slice()));
    let zeros = [token(number, 0, 25)];
    assert!(rt; is_cut_into(alloc, "0000000000000000000000007", zeros.as_slice()));
    let greatest = [token(number, 0, 20)];
    assert!(rt; is_cut_into(alloc, "18446744073709551615", greatest.as_slice()));
}

#[test]
fn finds_the_first_fault(rt: HostRuntime) {
    let rows = [
        ("fn mainEdt { $ }", 13),
        ("fn mainEdt { print 18446744073709551616; }", 19),
        ("\0", 0),
        ("a .. 99999999999999999999", 2),
        ("0018446744073709551616", 0),
    ];
    for (text, place) in rows {
        let stop = tokens(rt.alloc(), text.as_bytes()).err();
        assert_eq!(rt;
            stop,
            Some(TokensStop::Fault(LexFault { place })),
            "in {text}"
        );
    }
}

#[test]
fn reads_numbers(rt: HostRuntime) {
    assert_eq!(rt; number_value(b"0000000000000000000000007"), Some(7));
    assert_eq!(rt;
        number_value(b"18446744073709551615"),
        Some(18446744073709551615)
    );
    assert_eq!(rt; number_value(b"18446744073709551616"), None);
}

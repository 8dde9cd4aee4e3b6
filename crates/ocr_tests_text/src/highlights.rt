// The names that the files of editors/ know are the grammar's reserved names.
use crate::editors::{CALLS, CONSTANTS, WORDS};
use ocr_program_grammar::{Lexeme, lexeme_of_name};
use std::test::Fail;

// How often a name stands in a list.
fn times(names: &[&[u8]], name: &[u8]) -> u64 {
    let mut count: u64 = 0;
    for other in names {
        if **other == *name {
            count = count.saturating_add(1);
        }
    }
    count
}

#[test]
fn editors_know_each_word_once(rt: HostRuntime) -> Result<(), Fail> {
    assert_eq!(rt; WORDS.len(), 12);
    for word in WORDS {
        let is_word = matches!(lexeme_of_name(rt.alloc(), word)?, Lexeme::Word(_));
        assert!(rt; is_word && times(&WORDS, word) == 1);
    }
    Ok(())
}

#[test]
fn editors_know_each_call_once(rt: HostRuntime) -> Result<(), Fail> {
    assert_eq!(rt; CALLS.len(), 16);
    for call in CALLS {
        let is_call = matches!(lexeme_of_name(rt.alloc(), call)?, Lexeme::Call(_));
        assert!(rt; is_call && times(&CALLS, call) == 1);
    }
    Ok(())
}

#[test]
fn editors_know_each_constant_once(rt: HostRuntime) -> Result<(), Fail> {
    assert_eq!(rt; CONSTANTS.len(), 22);
    for constant in CONSTANTS {
        let is_constant = matches!(lexeme_of_name(rt.alloc(), constant)?, Lexeme::Constant(_));
        assert!(rt; is_constant && times(&CONSTANTS, constant) == 1);
    }
    Ok(())
}

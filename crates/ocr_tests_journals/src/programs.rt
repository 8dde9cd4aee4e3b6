// Programs of texts.
use ocr_body_code::Checked;
use ocr_program::parse;
use ocr_program_check::check;
use ocr_text::tokens;
use std::alloc::Global;
use std::test::Fail;

/// The program that a text is.
pub fn program_of(alloc: Global, text: &[u8]) -> Result<Checked, Fail> {
    let tokens = tokens(alloc, text)?;
    let program = parse(alloc, text, &tokens)?;
    if program.functions.len() > 1000 {
        return Err(Fail::from("a program of few functions"));
    }
    Ok(check(alloc, program)?)
}

// The functions of a program by their names.
ghost use Rattle.std.specs.Prelude.{◌≡◌, ◌+◌, ◌≤◌, length};
ghost use Rattle.ocr_program_tree.specs.Functions as functions;
ghost use Rattle.ocr_program_tree.specs.View.{functions_of};

use crate::tree::Function;

/// The number of the first function of this name, from 1; one past the last where there is none.
pub fn number_named(program: &[Function], name: &[u8]) -> usize
    ensures { result ≡ functions.number_named name.now (functions_of program.now) }
{
    let mut rest = program;
    while let [first, after @ ..] = rest {
        if first.name.as_bytes() == name {
            break;
        }
        rest = after;
    }
    program.len() - rest.len() + 1
}

/// The name of the function that the first EDT runs.
pub fn main_name() -> &'static [u8]
    ensures { result.now ≡ functions.main_name }
{
    b"mainEdt"
}

// A program that may be run.
use crate::code::FunctionCode;
use crate::resolver::resolve;
use ocr_base::NoMemory;
use ocr_program_tree::{Program, main_name, number_named};
use std::alloc::Global;
use std::marker::Model;

/// A program that breaks no rule that a run rests on. Contracts see it as its functions.
#[derive(Drop)]
pub struct Checked {
    program: Program,
    code: Vec<FunctionCode>,
}

impl Model for Checked {
    ghost use Rattle.std.specs.Prelude.{◌≡◌, map, true};
    ghost use Rattle.ocr_program_tree.specs.Functions.{numbers_in};
    ghost use Rattle.ocr_program_tree.specs.Runnable.{IsRunnable};
    ghost use Rattle.ocr_body_code.specs.Code.{bodies_in, are_sound};
    ghost use Rattle.ocr_program_tree.specs.View.{tree_of};
    ghost use Rattle.std.specs.Coded.{codes};
    ghost use Rattle.ocr_program_tree.specs.contracts.tree.Expr as expr;
    ghost use Rattle.ocr_program_tree.specs.contracts.tree.Stmt as stmt;
    ghost use Rattle.ocr_program_tree.specs.declared.tree.Program.{Program};

    ghost Value = { Program };

    ghost coded = { Prim.hlevel (codes, expr.the_row.coded, stmt.the_row.coded) };

    ghost view = { λ c. c.program };

    ghost invariant = { λ c. (bodies_in c.code.items ≡ map (λ f. f.body) (tree_of c.program))
        × (are_sound (numbers_in (tree_of c.program)) c.code.items ≡ true)
        × IsRunnable (tree_of c.program) };
}

impl Checked {
    ghost use Rattle.std.specs.Prelude.{◌≡◌, ◌≤◌, ◌<◌, length, true, IfOk};
    ghost use Rattle.ocr_program_tree.specs.Runnable.{IsRunnable};
    ghost use Rattle.ocr_body_code.specs.Checked.{checked_tree};
    ghost use Rattle.ocr_body_code.specs.Code.{body_in, is_sound};
    ghost use Rattle.ocr_program_tree.specs.Functions.{statements_at, number_of_main, numbers_in};
    ghost use Rattle.ocr_program_tree.specs.View.{tree_of};
    ghost use Rattle.ocr_body_meaning.specs.Words.{is_program_of_words};

    /// Takes a program that may be run.
    pub fn new(alloc: Global, program: Program) -> Result<Self, NoMemory>
        requires { IsRunnable (tree_of program) }
        ensures { IfOk result (λ checked. checked_tree checked ≡ tree_of program) }
    {
        let code = resolve(alloc, &program)?;
        Ok(Checked { program, code })
    }

    /// The code of function number n, from 1.
    pub fn function(&self, function: u32) -> &FunctionCode
        requires { (0 < function) × (function ≤ length (checked_tree self.now)) }
        ensures body { body_in result.now ≡ statements_at (checked_tree self.now) function }
        ensures sound { is_sound (numbers_in (checked_tree self.now)) result.now ≡ true }
    {
        &self.code[function as usize - 1]
    }

    /// The program's tree.
    pub fn program(&self) -> &Program
        ensures { tree_of result.now ≡ checked_tree self.now }
    {
        &self.program
    }

    /// How many functions there are.
    pub fn count(&self) -> usize
        ensures { result ≡ length (checked_tree self.now) }
    {
        self.program.functions.len()
    }

    /// The numbers in a program that may be run have 64 bits.
    pub fn words_law(&self)
        ensures { is_program_of_words (checked_tree self.now) ≡ true }
    {
        let _code = self.code.as_slice();
    }

    /// What everything above may rest on: each call names a function that is there and has short
    /// lists, and there is a `mainEdt`.
    pub fn runnable_law(&self)
        ensures { IsRunnable (checked_tree self.now) }
    {
        let _code = self.code.as_slice();
    }

    /// The number of the function that the first EDT runs, `mainEdt`, from 1.
    pub fn main_function(&self) -> u32
        ensures { result ≡ number_of_main (checked_tree self.now) }
    {
        number_named(&self.program.functions, main_name()) as u32
    }
}

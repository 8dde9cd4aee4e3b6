// The rules that a task program keeps.
ghost use Rattle.std.specs.Prelude.{◌≡◌, ◌<◌, ◌+◌, ◌^◌, ℕ, List, length, IfOk, IfErr, OnOk};
ghost use Rattle.ocr_program_check.specs.Check.{FailsNowhere, HasNamesake, BreaksNoRule, BreachLaw, is_among};
ghost use Rattle.ocr_program_check.specs.Check.{names_of as names_in};
ghost use Rattle.ocr_program_check.specs.Names.{knows, IsStopOf};
ghost use Rattle.ocr_program_tree.specs.Runnable.{IsRunnable};
ghost use Rattle.ocr_body_code.specs.Checked.{checked_tree};
ghost use Rattle.ocr_program_tree.specs.View.{functions_of, tree_of};

use crate::names::walk_function;
use ocr_base::NoMemory;
use ocr_body_code::Checked;
use ocr_program_tree::{Function, Program, main_name};
use std::alloc::{AllocFailed, Global};
use std::collections::BTreeSet;
use std::error::Error;
use std::fmt;

/// The rule that a program breaks first, and the number of the function in which it does, from 1 in
/// the order of the text; 0 where there is no function `mainEdt`.
#[derive(Clone, Copy, PartialEq, Eq, Debug)]
pub struct CheckFault {
    pub rule: u32,
    pub function: u32,
}

impl fmt::Display for CheckFault {
    ghost use Rattle.std.specs.Prelude.{Some};
    ghost use Rattle.ocr_program_check.specs.Messages.{fault_text};

    ghost output = { λ fault. Some (fault_text fault) };

    fn fmt<W: fmt::Write>(&self, f: &mut fmt::Formatter<W>) -> fmt::Result {
        write!(
            f,
            "check fault: rule {} in function {}",
            self.rule, self.function
        )
    }
}

impl Error for CheckFault {}

/// Why a program was not taken.
#[derive(Clone, Copy, PartialEq, Eq, Debug)]
pub enum CheckStop {
    /// It breaks a rule.
    Fault(CheckFault),
    /// Memory was refused.
    NoMemory,
}

impl fmt::Display for CheckStop {
    ghost use Rattle.std.specs.Prelude.{Some};
    ghost use Rattle.ocr_program_check.specs.Messages.{stop_text};

    ghost output = { λ stop. Some (stop_text stop) };

    fn fmt<W: fmt::Write>(&self, f: &mut fmt::Formatter<W>) -> fmt::Result {
        match self {
            CheckStop::Fault(fault) => fault.fmt(f),
            CheckStop::NoMemory => NoMemory.fmt(f),
        }
    }
}

impl Error for CheckStop {}

impl From<CheckFault> for CheckStop {
    ghost use Rattle.ocr_program_check.specs.declared.rules.CheckStop.TheVariants.{Fault};

    ghost from_gives = { λ fault stop. stop ≡ Fault fault };

    fn from(fault: CheckFault) -> Self {
        CheckStop::Fault(fault)
    }
}

impl<T: Drop> From<AllocFailed<T>> for CheckStop {
    ghost use Rattle.ocr_program_check.specs.declared.rules.CheckStop.TheVariants.{NoMemory};

    ghost from_gives = { λ _ stop. stop ≡ NoMemory };

    fn from(_failed: AllocFailed<T>) -> Self {
        CheckStop::NoMemory
    }
}

impl From<NoMemory> for CheckStop {
    ghost use Rattle.ocr_program_check.specs.declared.rules.CheckStop.TheVariants.{NoMemory};

    ghost from_gives = { λ _ stop. stop ≡ NoMemory };

    fn from(_refused: NoMemory) -> Self {
        CheckStop::NoMemory
    }
}

// The names of the functions, no two of which are alike.
fn names_of(alloc: Global, functions: &[Function]) -> Result<BTreeSet<&[u8]>, CheckStop>
    requires { length functions.now < 2 ^ 32 }
    ensures distinct { OnOk result (FailsNowhere HasNamesake (functions_of functions.now)) }
    ensures names { IfOk result (λ names. (x : List ℕ) → knows names x
        ≡ is_among x (names_in (functions_of functions.now))) }
    ensures err { IfErr result (IsStopOf (functions_of functions.now)) }
{
    let mut names = BTreeSet::new(alloc);
    for (i, function) in functions.iter().enumerate() {
        if !names.insert(function.name.as_bytes())? {
            return Err(CheckStop::Fault(CheckFault {
                rule: 1,
                function: i as u32 + 1,
            }));
        }
    }
    Ok(names)
}

// Looks for the first breach of the rules.
fn judge(alloc: Global, functions: &[Function]) -> Result<(), CheckStop>
    requires { length functions.now + 1 < 2 ^ 32 }
    ensures ok { OnOk result (BreaksNoRule (functions_of functions.now)) }
    ensures runnable { OnOk result (IsRunnable (functions_of functions.now)) }
    ensures err { IfErr result (IsStopOf (functions_of functions.now)) }
{
    let names = names_of(alloc, functions)?;
    if !names.contains(main_name()) {
        return Err(CheckStop::Fault(CheckFault {
            rule: 2,
            function: 0,
        }));
    }
    for (i, function) in functions.iter().enumerate() {
        walk_function(alloc, &names, i as u32 + 1, function)?;
    }
    Ok(())
}

/// Makes a program ready to be run where it breaks no rule. Otherwise the fault is its first
/// breach: two functions of one name are looked for first, then whether there is a `mainEdt`, and
/// then each function is walked in the order of the text. A fault numbers the functions in 32 bits.
pub fn check(alloc: Global, program: Program) -> Result<Checked, CheckStop>
    requires { length (tree_of program) + 1 < 2 ^ 32 }
    ensures tree { IfOk result (λ checked. checked_tree checked ≡ tree_of program) }
    ensures ok { OnOk result (BreaksNoRule (tree_of program)) }
    ensures fault { IfErr result (IsStopOf (tree_of program)) }
{
    judge(alloc, &program.functions)?;
    Ok(Checked::new(alloc, program)?)
}

/// A program has at most one first breach.
pub fn breach_law()
    ensures { BreachLaw }
{}

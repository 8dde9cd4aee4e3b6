// The walk of a function in the order of its text, with the names that were let.
ghost use Rattle.std.specs.Prelude.{◌≡◌, ℕ, List, None, IfErr, OnOk};
ghost use Rattle.ocr_program_check.specs.Check.{Used, FunctionNamed, mention_of_name};
ghost use Rattle.ocr_program_tree.specs.declared.rules.TheConstants.{MOST_PARAMETERS};
ghost use Rattle.ocr_program_check.specs.Check.{is_among as among};
ghost use Rattle.ocr_program_check.specs.Checked.{mention_rule, expression_rule, arguments_rule, let_rule, with_name, no_declarations, Passed, leaving, statement_outcome, statements_outcome, function_rule};
ghost use Rattle.ocr_program_check.specs.Names.{texts, known_in, declared_in, declarations_in, knows, members_rule, assign_rule, IsFaultIn, IsStopIn, IsStopAt, IsSameFunction};
ghost use Rattle.ocr_program_tree.specs.Tree.{Let};
ghost use Rattle.ocr_program_tree.specs.View.{expression_of, name_of, arguments_of, statement_of, statements_of, function_of};

use crate::rules::{CheckFault, CheckStop};
use ocr_program_tree::{
    Argument, CallName, Expr, Function, Invoke, MOST_DEPENDENCES, MOST_PARAMETERS, Name, Stmt,
};
use std::alloc::Global;
use std::collections::BTreeSet;

/// The most names that a function lets.
pub const MOST_LETS: usize = 64;

/// The names where the walk of a function stands: those of the functions, those that this one, by
/// its number, has let, and those of them that are declared here.
#[derive(Drop)]
pub struct Names<'n, 'a> {
    alloc: Global,
    functions: &'n BTreeSet<&'a [u8]>,
    function: u32,
    lets: Vec<&'a [u8]>,
    declared: Vec<&'a [u8]>,
}

// Whether a name is among others.
#[tactic(auto, using(crate::proofs::Texts::list_any_texts))]
fn is_among(name: &[u8], others: &[&[u8]]) -> bool
    ensures { result ≡ among name.now (texts others.now) }
{
    others.contains(&name)
}

impl<'n, 'a> Names<'n, 'a> {
    // The start of a function.
    fn new(alloc: Global, functions: &'n BTreeSet<&'a [u8]>, function: u32) -> Self
        ensures functions { result.functions.now ≡ functions.now }
        ensures function { result.function ≡ function }
        ensures kept { declarations_in result ≡ no_declarations }
    {
        Names {
            alloc,
            functions,
            function,
            lets: Vec::new(alloc),
            declared: Vec::new(alloc),
        }
    }

    // The fault of a rule in this function.
    fn fault(&self, rule: u32) -> CheckFault
        ensures rule { result.rule ≡ rule }
        ensures function { result.function ≡ self.now.function }
    {
        CheckFault {
            rule,
            function: self.function,
        }
    }

    // A variable is read, assigned or written.
    fn used(&self, name: &Name) -> Result<(), CheckFault>
        ensures ok { OnOk result
            (mention_rule (known_in self.now) (declared_in self.now) (Used name.now) ≡ None) }
        ensures err { IfErr result (IsFaultIn self.now
            (mention_rule (known_in self.now) (declared_in self.now) (Used name.now))) }
    {
        if !is_among(name.as_bytes(), &self.declared) {
            return Err(self.fault(4));
        }
        Ok(())
    }

    // A function is named.
    fn function_named(&self, name: &Name) -> Result<(), CheckFault>
        ensures ok { OnOk result
            (mention_rule (known_in self.now) (declared_in self.now) (FunctionNamed name.now)
            ≡ None) }
        ensures err { IfErr result (IsFaultIn self.now
            (mention_rule (known_in self.now) (declared_in self.now) (FunctionNamed name.now))) }
    {
        if !self.functions.contains(name.as_bytes()) {
            return Err(self.fault(5));
        }
        Ok(())
    }

    // A name among the arguments of a call.
    fn named(&self, call: CallName, name: &Name) -> Result<(), CheckFault>
        ensures ok { OnOk result
            (mention_rule (known_in self.now) (declared_in self.now)
            (mention_of_name call name.now) ≡ None) }
        ensures err { IfErr result (IsFaultIn self.now
            (mention_rule (known_in self.now) (declared_in self.now)
            (mention_of_name call name.now))) }
    {
        match call {
            CallName::TemplateCreate => self.function_named(name),
            _ => self.used(name),
        }
    }

    // An expression.
    #[cycle(expression)]
    #[tactic(auto, using(crate::proofs::Rulesets::parts))]
    fn expression(&self, expr: &Expr) -> Result<(), CheckStop>
        ensures ok { OnOk result
            (expression_rule (known_in self.now) (declared_in self.now) (expression_of expr.now)
            ≡ None) }
        ensures err { IfErr result (IsStopAt self.now.function
            (expression_rule (known_in self.now) (declared_in self.now) (expression_of expr.now))) }
    {
        match expr {
            Expr::Number(_) => Ok(()),
            Expr::Constant(_) => Ok(()),
            Expr::Var(name) => Ok(self.used(name)?),
            Expr::Paramc => Ok(()),
            Expr::Depc => Ok(()),
            Expr::Code => Ok(()),
            Expr::Paramv(index) => self.expression(index),
            Expr::Depv(index) => self.expression(index),
            Expr::Unary(_, operand) => self.expression(operand),
            Expr::Binary(_, left, right) => {
                self.expression(left)?;
                self.expression(right)
            }
            Expr::Invoke(call) => self.arguments(call),
        }
    }

    // The arguments of a call, the first list of which are parameters and the others dependences.
    #[cycle(expression)]
    fn arguments(&self, call: &Invoke) -> Result<(), CheckStop>
        ensures ok { OnOk result
            (arguments_rule (known_in self.now) (declared_in self.now)
            (name_of call.now) MOST_PARAMETERS (arguments_of call.now) ≡ None) }
        ensures err { IfErr result (IsStopAt self.now.function
            (arguments_rule (known_in self.now) (declared_in self.now)
            (name_of call.now) MOST_PARAMETERS (arguments_of call.now))) }
    {
        let list = call.arguments(self.alloc)?;
        let mut most = MOST_PARAMETERS;
        for place in 0..list.len() {
            match list[place] {
                Argument::Value(value) => self.expression(value)?,
                Argument::List(values) => {
                    self.members(most, values)?;
                    most = MOST_DEPENDENCES;
                }
                Argument::Name(name) => self.named(call.name(), name)?,
            }
        }
        Ok(())
    }

    // A list of at most so many values, and the bracket that closes it.
    #[cycle(expression)]
    #[tactic(auto, using(crate::proofs::Rulesets::parts))]
    fn members(&self, most: usize, members: &[Expr]) -> Result<(), CheckStop>
        ensures ok { OnOk result
            (members_rule (known_in self.now) (declared_in self.now) most members.now ≡ None) }
        ensures err { IfErr result (IsStopAt self.now.function
            (members_rule (known_in self.now) (declared_in self.now) most members.now)) }
    {
        for member in members {
            self.expression(member)?;
        }
        if members.len() > most {
            return Err(CheckStop::Fault(self.fault(6)));
        }
        Ok(())
    }

    // A `let` begins.
    fn let_begins(&self, name: &Name) -> Result<(), CheckFault>
        ensures ok { OnOk result (let_rule (declarations_in self.now) name.now ≡ None) }
        ensures err { IfErr result
            (IsFaultIn self.now (let_rule (declarations_in self.now) name.now)) }
    {
        if is_among(name.as_bytes(), &self.lets) {
            return Err(self.fault(3));
        }
        if self.lets.len() >= MOST_LETS {
            return Err(self.fault(7));
        }
        Ok(())
    }

    // The name of a `let` is declared.
    #[tactic(auto, using(crate::proofs::Texts::texts_push))]
    fn declare(&mut self, name: &'a Name) -> Result<(), CheckStop>
        ensures same { IsSameFunction self.old self.new }
        ensures ok { OnOk result (declarations_in self.new
            ≡ with_name (declarations_in self.old) name.now) }
        ensures err { IfErr result (λ stop. stop ≡ CheckStop.NoMemory) }
    {
        self.lets.push(name.as_bytes())?;
        self.declared.push(name.as_bytes())?;
        Ok(())
    }

    // A `let`: its name, its expression, and then the name is declared.
    #[tactic(auto, using(crate::proofs::Rulesets::lets))]
    fn let_statement(&mut self, name: &'a Name, value: &Expr) -> Result<(), CheckStop>
        ensures same { IsSameFunction self.old self.new }
        ensures ok { OnOk result
            (statement_outcome (known_in self.old) (Let name.now (expression_of value.now))
            (declarations_in self.old)
            ≡ Passed (declarations_in self.new)) }
        ensures err { IfErr result (IsStopIn self.old
            (statement_outcome (known_in self.old) (Let name.now (expression_of value.now))
            (declarations_in self.old))) }
    {
        self.let_begins(name)?;
        self.expression(value)?;
        self.declare(name)
    }

    // An assignment: the name of its variable, then its expression.
    #[tactic(auto, using(crate::proofs::Rulesets::parts))]
    fn assignment(&self, name: &Name, value: &Expr) -> Result<(), CheckStop>
        ensures ok { OnOk result (assign_rule self.now name.now (expression_of value.now) ≡ None) }
        ensures err { IfErr result
            (IsStopAt self.now.function (assign_rule self.now name.now (expression_of value.now))) }
    {
        self.used(name)?;
        self.expression(value)
    }

    // A statement.
    #[cycle(statement)]
    #[tactic(auto, using(crate::proofs::Rulesets::statements))]
    fn statement(&mut self, stmt: &'a Stmt) -> Result<(), CheckStop>
        ensures same { IsSameFunction self.old self.new }
        ensures ok { OnOk result
            (statement_outcome (known_in self.old) (statement_of stmt.now)
            (declarations_in self.old)
            ≡ Passed (declarations_in self.new)) }
        ensures err { IfErr result (IsStopIn self.old
            (statement_outcome (known_in self.old) (statement_of stmt.now)
            (declarations_in self.old))) }
    {
        match stmt {
            Stmt::Let { name, value } => self.let_statement(name, value),
            Stmt::Assign { name, value } => self.assignment(name, value),
            Stmt::If { test, yes, no } => {
                self.expression(test)?;
                self.block(yes)?;
                self.block(no)
            }
            Stmt::While { test, body } => {
                self.expression(test)?;
                self.block(body)
            }
            Stmt::Print { value } => self.expression(value),
            Stmt::Return { value } => self.expression(value),
            Stmt::Invoke(call) => self.arguments(call),
        }
    }

    // A block: what is declared in it is not seen after it.
    #[cycle(statement)]
    #[tactic(auto, using(crate::proofs::Rulesets::blocks))]
    fn block(&mut self, stmts: &'a [Stmt]) -> Result<(), CheckStop>
        ensures same { IsSameFunction self.old self.new }
        ensures ok { OnOk result (leaving (declarations_in self.old)
            (statements_outcome (known_in self.old) (statements_of stmts.now)
            (declarations_in self.old))
            ≡ Passed (declarations_in self.new)) }
        ensures err { IfErr result (IsStopIn self.old (leaving (declarations_in self.old)
            (statements_outcome (known_in self.old) (statements_of stmts.now)
            (declarations_in self.old)))) }
    {
        let before = self.declared.len();
        self.statements(stmts)?;
        self.declared.truncate(before);
        Ok(())
    }

    // Statements one after the other.
    #[cycle(statement)]
    fn statements(&mut self, stmts: &'a [Stmt]) -> Result<(), CheckStop>
        ensures same { IsSameFunction self.old self.new }
        ensures ok { OnOk result
            (statements_outcome (known_in self.old) (statements_of stmts.now)
            (declarations_in self.old)
            ≡ Passed (declarations_in self.new)) }
        ensures err { IfErr result (IsStopIn self.old
            (statements_outcome (known_in self.old) (statements_of stmts.now)
            (declarations_in self.old))) }
    {
        for stmt in stmts {
            self.statement(stmt)?;
        }
        Ok(())
    }
}

/// Walks the body of a function, whose number is `number`, where these are the names of all
/// functions.
#[tactic(auto, using(crate::proofs::Outcomes::rule_passed, crate::proofs::Outcomes::rule_broke))]
pub fn walk_function<'a>(
    alloc: Global,
    names: &BTreeSet<&'a [u8]>,
    number: u32,
    function: &'a Function,
) -> Result<(), CheckStop>
    ensures ok { OnOk result (function_rule (knows names.now) (function_of function.now) ≡ None) }
    ensures err { IfErr result
        (IsStopAt number (function_rule (knows names.now) (function_of function.now))) }
{
    let mut walk = Names::new(alloc, names, number);
    walk.statements(&function.body)
}

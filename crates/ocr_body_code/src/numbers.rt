// The numbers of the functions of a program by their names.
use ocr_base::NoMemory;
use ocr_program_tree::Function;
use std::alloc::Global;
use std::collections::BTreeMap;

/// An index of the functions: the number of the first one of each name, from 1, and the number of
/// none, one past the last.
#[derive(Drop)]
pub struct Numbers<'a> {
    by_name: BTreeMap<&'a [u8], u32>,
    none: u32,
}

impl<'a> Numbers<'a> {
    ghost use Rattle.std.specs.Prelude.{◌≡◌, ◌<◌, ◌+◌, ◌^◌, length, IfOk};
    ghost use Rattle.ocr_program_tree.specs.Functions.{numbers_in};
    ghost use Rattle.ocr_program_tree.specs.View.{functions_of};
    ghost use Rattle.ocr_body_code.specs.Resolved.{numbers_of};

    /// The index of these functions, which are entered from the last on: the first one of a name
    /// stays.
    pub fn new(alloc: Global, functions: &'a [Function]) -> Result<Self, NoMemory>
        requires { length functions.now + 1 < 2 ^ 32 }
        ensures { IfOk result (λ numbers.
            numbers_of numbers ≡ numbers_in (functions_of functions.now)) }
    {
        let mut by_name = BTreeMap::new(alloc);
        for i in 0..functions.len() {
            let number = functions.len() - i;
            let name = functions[number - 1].name.as_bytes();
            if by_name.insert(name, number as u32).is_err() {
                return Err(NoMemory);
            }
        }
        let none = functions.len() as u32 + 1;
        Ok(Numbers { by_name, none })
    }

    /// The number of the first function of this name; one past the last where there is none.
    pub fn number(&self, name: &[u8]) -> u32
        ensures { result ≡ numbers_of self.now name.now }
    {
        match self.by_name.get(name) {
            Some(number) => *number,
            None => self.none,
        }
    }
}

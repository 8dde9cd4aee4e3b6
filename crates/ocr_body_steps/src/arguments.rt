// Arguments without calls, which are found with their fuel in a register.
ghost use Rattle.std.specs.Prelude.{◌≡◌, ◌<◌, ◌≤◌, ◌-◌, ◌^◌, true, IfSome, IfNone, Some};
ghost use Rattle.ocr_body_steps.specs.Local.{Fits};
ghost use Rattle.ocr_body_steps.specs.Plain.{AreFound, AreItems, AreListed, IsFirstIn, are_args_in};

use crate::given::Given;
use crate::local::{Frame, Local};
use crate::plain::{NONE_LEFT, operand};
use ocr_base::Seq;
use ocr_body_code::{ArgCode, Named};

/// The fuel that arguments leave, and the first name among them.
#[derive(Clone, Copy)]
pub struct Walked {
    pub left: u64,
    pub named: Option<Named>,
}

const UNKNOWN: Walked = Walked {
    left: NONE_LEFT,
    named: None,
};

/// Adds what the arguments of a call come to, where none makes a call or stops, and answers the
/// fuel that is left and the first name. Any others leave `NONE_LEFT`, and so does want of memory:
/// then it is unknown what was added.
#[inline(always)]
pub fn plain_all(
    frame: &Frame,
    args: &ArgCode,
    given: &mut Given,
    fuel: u64,
    local: &Local,
) -> Walked
    requires fits { Fits frame.now local.now }
    requires placed { are_args_in frame.now args.now ≡ true }
    ensures less { result.left < 2 ^ 64 - 1 → result.left ≤ fuel }
    ensures found { result.left < 2 ^ 64 - 1
        → AreFound frame.now args.now local.now fuel given.old given.new result.left }
    ensures first { result.left < 2 ^ 64 - 1 → IsFirstIn frame.now args.now result.named }
{
    let mut args = args;
    let mut left = fuel;
    let mut named = None;
    loop {
        match args {
            ArgCode::End => return Walked { left, named },
            ArgCode::Name(name, rest) => {
                named = first(named, *name);
                args = rest;
            }
            ArgCode::Value(value, rest) => {
                let found = operand(frame, value, left, local);
                if found.left == NONE_LEFT {
                    return UNKNOWN;
                }
                let Ok(()) = given.add_value(found.value) else {
                    return UNKNOWN
                };
                left = found.left;
                args = rest;
            }
            ArgCode::List(list, rest) => {
                left = plain_list(frame, list, given, left, local);
                if left == NONE_LEFT {
                    return UNKNOWN;
                }
                args = rest;
            }
        }
    }
}

// The first name, where this one comes next.
#[inline(always)]
fn first(named: Option<Named>, name: Named) -> Option<Named>
    ensures some { IfSome named (λ first. result ≡ Some first) }
    ensures none { IfNone named (result ≡ Some name) }
{
    match named {
        Some(_) => named,
        None => Some(name),
    }
}

// A list among such arguments. The commonest has no item, and is done in place.
#[inline(always)]
fn plain_list(frame: &Frame, list: &ArgCode, given: &mut Given, fuel: u64, local: &Local) -> u64
    requires fits { Fits frame.now local.now }
    requires placed { are_args_in frame.now list.now ≡ true }
    ensures less { result < 2 ^ 64 - 1 → result ≤ fuel }
    ensures found { result < 2 ^ 64 - 1
        → AreListed frame.now list.now local.now fuel given.old given.new result }
{
    if let ArgCode::End = list {
        let Ok(()) = given.add_list(Seq::new(frame.alloc)) else {
            return NONE_LEFT
        };
        return fuel;
    }
    plain_items(frame, list, given, fuel, local)
}

// A list of any items.
#[inline(never)]
fn plain_items(frame: &Frame, list: &ArgCode, given: &mut Given, fuel: u64, local: &Local) -> u64
    requires fits { Fits frame.now local.now }
    requires placed { are_args_in frame.now list.now ≡ true }
    ensures less { result < 2 ^ 64 - 1 → result ≤ fuel }
    ensures found { result < 2 ^ 64 - 1
        → AreListed frame.now list.now local.now fuel given.old given.new result }
{
    let mut items = Seq::new(frame.alloc);
    let left = add_items(frame, list, &mut items, fuel, local);
    if left == NONE_LEFT {
        return NONE_LEFT;
    }
    let Ok(()) = given.add_list(items) else {
        return NONE_LEFT
    };
    left
}

// Adds the values of a list's items, and answers the fuel that is left.
fn add_items(frame: &Frame, list: &ArgCode, items: &mut Seq<u64>, fuel: u64, local: &Local) -> u64
    requires fits { Fits frame.now local.now }
    requires placed { are_args_in frame.now list.now ≡ true }
    ensures less { result < 2 ^ 64 - 1 → result ≤ fuel }
    ensures found { result < 2 ^ 64 - 1
        → AreItems frame.now list.now local.now fuel items.old items.new result }
{
    match list {
        ArgCode::End => fuel,
        ArgCode::Value(value, rest) => {
            let found = operand(frame, value, fuel, local);
            if found.left == NONE_LEFT {
                return NONE_LEFT;
            }
            let Ok(()) = items.push(found.value) else {
                return NONE_LEFT
            };
            add_items(frame, rest, items, found.left, local)
        }
        _ => NONE_LEFT,
    }
}

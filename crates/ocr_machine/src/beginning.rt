// The parts before the first entry.
ghost use Rattle.std.specs.Prelude.{◌≡◌, ◌≤◌, ◌+◌, ◌∷◌, [], length, ℕ, IfOk};
ghost use Rattle.ocr_program_tree.specs.Functions.{number_of_main};
ghost use Rattle.ocr_slots.specs.Slots as slots;
ghost use Rattle.ocr_datablock.specs.Block as blocks;
ghost use Rattle.ocr_machine_history.specs.History.{Setting};
ghost use Rattle.ocr_machine_parts.specs.Calls.{link_calls, stores_from};
ghost use Rattle.ocr_machine_parts.specs.Parts.{parts_of};
ghost use Rattle.ocr_machine_parts.specs.Taken.{keys, parts_in, ArePlaced};

use ocr_acquire::Mode;
use ocr_base::{NoMemory, Seq};
use ocr_datablock::Block;
use ocr_edt::{Edt, Filling};
use ocr_guid::Guid;
use ocr_machine_history::{ARGUMENTS, MAIN_EDT};
use ocr_machine_parts::{BoxedBlock, BoxedCore, Core, Loans, Part};
use ocr_slots::Slots;
use std::alloc::Global;

/// The parts of what the opening makes: the face of the argument block, and the face and the core
/// of the EDT of `mainEdt`, whose function has this number.
pub fn opening(
    alloc: Global,
    main: u32,
    args: &[u64],
    limit: u64,
) -> Result<Vec<(u64, Part)>, NoMemory>
    requires args { length args.now ≤ 32 }
    requires some { 2 ≤ limit }
    requires limit_fits { limit ≤ 65536 }
    ensures parts { IfOk result (λ parts. (s : Setting) → number_of_main s.program ≡ main
        → s.args ≡ args.now → s.limit ≡ limit
        → parts_in limit parts.items ≡ parts_of s []) }
    ensures placed { IfOk result (λ parts. ArePlaced limit parts.items) }
    ensures keys { IfOk result (λ parts. keys parts.items ≡ 1 ∷ 2 ∷ (limit + 2) ∷ []) }
{
    let block = argument_block(alloc, args)?;
    let words = BoxedBlock::new(alloc, block)?;
    let slots = main_slots(alloc)?;
    let core = Core {
        function: main,
        params: Seq::new(alloc),
        edt: Edt::Filling(Filling::new(Guid(MAIN_EDT), Guid::NULL, Guid::NULL, false)),
        loans: Loans::new(alloc),
    };
    let core = BoxedCore::new(alloc, core)?;
    match vec![in alloc;
        (ARGUMENTS, Part::Block(words)),
        (MAIN_EDT, Part::Edt(slots)),
        (limit + MAIN_EDT, Part::Core(core)),
    ] {
        Ok(parts) => Ok(parts),
        Err(_) => Err(NoMemory),
    }
}

/// The slot of `mainEdt`, which is linked in RW. What it is set to does not stand in the face.
fn main_slots(alloc: Global) -> Result<Slots, NoMemory>
    ensures { IfOk result (λ made. made ≡ slots.state_of 1 (link_calls [] 2)) }
{
    let mut slots = Slots::new(alloc, 1)?;
    slots.link(0, Mode::Rw);
    Ok(slots)
}

/// The argument block: the number of the arguments, and the arguments.
fn argument_block(alloc: Global, args: &[u64]) -> Result<Block, NoMemory>
    requires { length args.now ≤ 32 }
    ensures { IfOk result (λ made. made ≡ blocks.state_of (length args.now + 1) 0
        (stores_from 0 (length args.now ∷ args.now))) }
{
    let mut block = Block::new(alloc, args.len() as u32 + 1, Guid::NULL)?;
    block.store(0, args.len() as u64);
    for i in 0..args.len() {
        block.store(i as u32 + 1, args[i]);
    }
    Ok(block)
}

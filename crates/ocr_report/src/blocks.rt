// The blocks that were made.
ghost use Rattle.std.specs.Prelude.{◌≡◌, ◌++◌, ◌≤◌, length, OnOk, IfOk};
ghost use Rattle.std.specs.List.{flat_map};
ghost use Rattle.ocr_datablock.specs.Block.{is_gone};
ghost use Rattle.ocr_memory_model.specs.Orders.{setting_in};
ghost use Rattle.ocr_machine_history.specs.History.{history_of};
ghost use Rattle.ocr_machine_parts.specs.Kinds.{is_block};
ghost use Rattle.ocr_machine_parts.specs.Legal.{IsRun};
ghost use Rattle.ocr_report.specs.Blocks as spec;
ghost use Rattle.ocr_report.specs.Faces as told;
ghost use Rattle.ocr_memory_model.specs.Orders.{face_on};

use crate::after::table_after;
use crate::headed::{headed, line};
use ocr_base::NoMemory;
use ocr_datablock::Block;
use ocr_journal::phrase;
use ocr_machine_history::Journal;
use ocr_machine_parts::Part;
use ocr_memory_model::{Setting, State};
use std::alloc::Global;

// Whether an object is a block.
fn is_block(table: &State, object: u64) -> bool
    ensures { result ≡ is_block (face_on table.now object) }
{
    matches!(table.face(object), Some(Part::Block(_)))
}

// The blocks, rising.
#[tactic(auto, using(crate::proofs::Numbered::blocks_more))]
fn blocks(alloc: Global, table: &State) -> Result<Vec<u64>, NoMemory>
    ensures { IfOk result (λ blocks.
        blocks.items ≡ told.blocks_to (face_on table.now) table.now.limit) }
{
    let mut blocks = Vec::new(alloc);
    for below in 0..table.limit {
        if is_block(table, below + 1) {
            blocks.push(below + 1)?;
        }
    }
    Ok(blocks)
}

fn state_words(block: &Block) -> &'static [u8]
    ensures { result.now ≡ spec.state_words block.now.destroyed (is_gone block.now) }
{
    match (block.is_destroyed(), block.is_gone()) {
        (false, _) => b" live",
        (true, false) => b" destroyed",
        (true, true) => b" gone",
    }
}

// Writes the line of a block.
fn block_line(text: &mut Vec<u8>, number: u64, block: &Block) -> Result<(), NoMemory>
    ensures { OnOk result (text.new.items ≡ text.old.items
        ++ spec.block_line number block.now.size block.now.destroyed (is_gone block.now)) }
{
    phrase(text, b"block", &[number])?;
    phrase(text, b" words", &[u64::from(block.words())])?;
    line(text, state_words(block), &[])
}

// Writes the line of an object, where it is a block.
fn line_of(text: &mut Vec<u8>, table: &State, object: u64) -> Result<(), NoMemory>
    ensures { OnOk result (text.new.items
        ≡ text.old.items ++ told.line_on object (face_on table.now object)) }
{
    match table.face(object) {
        Some(Part::Block(block)) => block_line(text, object, block.get()),
        _ => Ok(()),
    }
}

fn block_lines(alloc: Global, table: &State, blocks: &[u64]) -> Result<Vec<u8>, NoMemory>
    ensures { IfOk result (λ text.
        text.items ≡ flat_map (λ d. told.line_on d (face_on table.now d)) blocks.now) }
{
    let mut text = Vec::new(alloc);
    for block in blocks {
        line_of(&mut text, table, *block)?;
    }
    Ok(text)
}

// The report on the blocks of a table.
fn blocks_in(alloc: Global, table: &State) -> Result<Vec<u8>, NoMemory>
    ensures { IfOk result (λ text.
        text.items ≡ told.blocks_in (face_on table.now) table.now.limit) }
{
    let made = blocks(alloc, table)?;
    let blocks = made.as_slice();
    let lines = block_lines(alloc, table, blocks)?;
    headed(alloc, b"blocks", blocks.len() as u64, &lines)
}

/// The report on the blocks that a run made: how many there are, and for each, rising, its words,
/// and whether it is live, destroyed or gone. NoMemory where memory is refused.
pub fn blocks_text(
    alloc: Global,
    setting: &Setting,
    limit: u64,
    journal: &Journal,
) -> Result<Vec<u8>, NoMemory>
    requires args { length setting.now.args.items ≤ 32 }
    requires limit { (2 ≤ limit) × (limit ≤ 65536) }
    requires run { IsRun (setting_in setting.now limit) (history_of journal.now) }
    ensures { IfOk result (λ text.
        text.items ≡ spec.blocks_text (setting_in setting.now limit) (history_of journal.now)) }
{
    let table = table_after(alloc, setting, limit, journal.entries())?;
    blocks_in(alloc, &table)
}

// Each test plays on a block that is lent to it: one held by value would be dropped on each way
// out.
ghost use Rattle.std.specs.Prelude.{◌≡◌, []};
ghost use Rattle.ocr_datablock.specs.Block.{state_of};

use ocr_acquire::Mode;
use ocr_base::NoMemory;
use ocr_datablock::{Asked, Block};
use ocr_guid::Guid;
use std::alloc::Global;
use std::test::Fail;

fn may_move_to_a_thread<T: Send + Sync>(_shared: &T) -> bool {
    true
}

fn is_served_in_order(alloc: Global, block: &mut Block) -> Result<(), NoMemory>
    requires { block.old ≡ state_of 1 2 [] }
{
    let first = block.ask(alloc, Guid(5), Mode::Ro)?;
    prove!(first == Asked::Granted);
    let second = block.ask(alloc, Guid(6), Mode::Ew)?;
    prove!(second == Asked::Queued);
    let third = block.ask(alloc, Guid(7), Mode::Ro)?;
    prove!(third == Asked::Queued);
    let by_creator = block.release(alloc, Guid(2))?;
    prove!(by_creator.len() == 0);
    let by_first = block.release(alloc, Guid(5))?;
    prove!(by_first.len() == 1);
    prove!(by_first[0] == Guid(6));
    let by_second = block.release(alloc, Guid(6))?;
    prove!(by_second.len() == 1);
    prove!(by_second[0] == Guid(7));
    let mode = block.mode_of(Guid(7));
    prove!(mode == Some(Mode::Ro));
    Ok(())
}

#[test]
fn the_queue_is_served_in_order(rt: HostRuntime) -> Result<(), Fail> {
    let alloc = rt.alloc();
    let mut block = Block::new(alloc, 1, Guid(2))?;
    is_served_in_order(alloc, &mut block)?;
    assert!(rt; may_move_to_a_thread(&block));
    Ok(())
}

fn grants_who_go_together(alloc: Global, block: &mut Block) -> Result<(), NoMemory>
    requires { block.old ≡ state_of 1 2 [] }
{
    let writer = block.ask(alloc, Guid(5), Mode::Ew)?;
    prove!(writer == Asked::Queued);
    let one = block.ask(alloc, Guid(6), Mode::Ro)?;
    prove!(one == Asked::Queued);
    let other = block.ask(alloc, Guid(7), Mode::Rw)?;
    prove!(other == Asked::Queued);
    let by_creator = block.release(alloc, Guid(2))?;
    prove!(by_creator.len() == 1);
    prove!(by_creator[0] == Guid(5));
    let rest_waits = block.waits(Guid(6)) && block.waits(Guid(7));
    prove!(rest_waits);
    let by_writer = block.release(alloc, Guid(5))?;
    prove!(by_writer.len() == 2);
    prove!(by_writer[0] == Guid(6) && by_writer[1] == Guid(7));
    Ok(())
}

#[test]
fn a_release_grants_who_go_together_and_leaves_the_rest(rt: HostRuntime) -> Result<(), Fail> {
    let alloc = rt.alloc();
    let mut block = Block::new(alloc, 1, Guid(2))?;
    grants_who_go_together(alloc, &mut block)?;
    Ok(())
}

fn is_gone_with_its_last_holder(alloc: Global, block: &mut Block) -> Result<(), NoMemory>
    requires { block.old ≡ state_of 1 2 [] }
{
    let asked = block.ask(alloc, Guid(6), Mode::Ew)?;
    prove!(asked == Asked::Queued);
    let by_other = block.doom(alloc, Guid(9))?;
    prove!(by_other.len() == 0);
    let (destroyed, gone) = (block.is_destroyed(), block.is_gone());
    prove!(destroyed && !gone);
    let by_creator = block.release(alloc, Guid(2))?;
    prove!(by_creator.len() == 1);
    prove!(by_creator[0] == Guid(6));
    let gone = block.is_gone();
    prove!(gone);
    let last = block.ask(alloc, Guid(5), Mode::Ro)?;
    prove!(last == Asked::Gone);
    Ok(())
}

#[test]
fn a_destroyed_block_is_gone_with_its_last_holder(rt: HostRuntime) -> Result<(), Fail> {
    let alloc = rt.alloc();
    let mut block = Block::new(alloc, 1, Guid(2))?;
    is_gone_with_its_last_holder(alloc, &mut block)?;
    Ok(())
}

fn goes_on_as_it_is_destroyed(alloc: Global, block: &mut Block) -> Result<(), NoMemory>
    requires { block.old ≡ state_of 1 2 [] }
{
    let asked = block.ask(alloc, Guid(6), Mode::Ew)?;
    prove!(asked == Asked::Queued);
    let (waits, holds) = (block.waits(Guid(6)), !block.waits(Guid(2)));
    prove!(waits && holds);
    let by_holder = block.doom(alloc, Guid(2))?;
    prove!(by_holder.len() == 1);
    prove!(by_holder[0] == Guid(6));
    let (gone, waits) = (block.is_gone(), block.waits(Guid(6)));
    prove!(gone && !waits);
    Ok(())
}

#[test]
fn a_holder_destroys_its_block_and_all_who_wait_go_on(rt: HostRuntime) -> Result<(), Fail> {
    let alloc = rt.alloc();
    let mut block = Block::new(alloc, 1, Guid(2))?;
    goes_on_as_it_is_destroyed(alloc, &mut block)?;
    Ok(())
}

// Beside a further holder the block stays, and who waits goes on waiting.
fn stays_for_the_other_holder(alloc: Global, block: &mut Block) -> Result<(), NoMemory>
    requires { block.old ≡ state_of 1 2 [] }
{
    let granted = block.ask(alloc, Guid(5), Mode::Rw)?;
    prove!(granted == Asked::Granted);
    let queued = block.ask(alloc, Guid(6), Mode::Ew)?;
    prove!(queued == Asked::Queued);
    let by_holder = block.doom(alloc, Guid(2))?;
    prove!(by_holder.len() == 0);
    let mode = block.mode_of(Guid(2));
    prove!(mode.is_none());
    let (gone, waits) = (block.is_gone(), block.waits(Guid(6)));
    prove!(!gone && waits);
    Ok(())
}

#[test]
fn a_destroyed_block_stays_for_its_other_holders(rt: HostRuntime) -> Result<(), Fail> {
    let alloc = rt.alloc();
    let mut block = Block::new(alloc, 1, Guid(2))?;
    stays_for_the_other_holder(alloc, &mut block)?;
    Ok(())
}

// One that was destroyed grants nobody, also who goes with its other holders.
fn grants_nobody_more(alloc: Global, block: &mut Block) -> Result<(), NoMemory>
    requires { block.old ≡ state_of 1 2 [] }
{
    let granted = block.ask(alloc, Guid(5), Mode::Ro)?;
    prove!(granted == Asked::Granted);
    let queued = block.ask(alloc, Guid(6), Mode::Const)?;
    prove!(queued == Asked::Queued);
    let by_holder = block.doom(alloc, Guid(2))?;
    prove!(by_holder.len() == 0);
    let waits = block.waits(Guid(6));
    prove!(waits);
    Ok(())
}

#[test]
fn a_destroyed_block_grants_nobody(rt: HostRuntime) -> Result<(), Fail> {
    let alloc = rt.alloc();
    let mut block = Block::new(alloc, 1, Guid(2))?;
    grants_nobody_more(alloc, &mut block)?;
    Ok(())
}

// Who asks later waits, though nobody waits before it and it goes with all who hold the block.
fn keeps_a_newcomer_waiting(alloc: Global, block: &mut Block) -> Result<(), NoMemory>
    requires { block.old ≡ state_of 1 2 [] }
{
    let one = block.ask(alloc, Guid(5), Mode::Ro)?;
    prove!(one == Asked::Granted);
    let other = block.ask(alloc, Guid(8), Mode::Ro)?;
    prove!(other == Asked::Granted);
    let by_creator = block.doom(alloc, Guid(2))?;
    prove!(by_creator.len() == 0);
    let newcomer = block.ask(alloc, Guid(7), Mode::Ro)?;
    prove!(newcomer == Asked::Queued);
    let by_one = block.release(alloc, Guid(5))?;
    prove!(by_one.len() == 0);
    let (gone, waits) = (block.is_gone(), block.waits(Guid(7)));
    prove!(!gone && waits);
    let by_other = block.release(alloc, Guid(8))?;
    prove!(by_other.len() == 1);
    prove!(by_other[0] == Guid(7));
    let gone = block.is_gone();
    prove!(gone);
    Ok(())
}

#[test]
fn a_newcomer_waits_until_a_destroyed_block_is_gone(rt: HostRuntime) -> Result<(), Fail> {
    let alloc = rt.alloc();
    let mut block = Block::new(alloc, 1, Guid(2))?;
    keeps_a_newcomer_waiting(alloc, &mut block)?;
    Ok(())
}

fn has_the_words_of_a_loan(alloc: Global, block: &mut Block) -> Result<(), NoMemory>
    requires { block.old ≡ state_of 4 0 [] }
{
    block.store(2, 9);
    let grantable = block.grantable(Mode::Ew);
    prove!(grantable);
    let granted = block.ask(alloc, Guid(5), Mode::Ew)?;
    prove!(granted == Asked::Granted);
    let mut loan = block.lend(Guid(5));
    let (borrower, mode, words) = (block.borrower(), loan.mode(), loan.words());
    prove!(borrower == Some(Guid(5)));
    prove!(mode == Mode::Ew && words == 4);
    loan.store(alloc, 3, 7)?;
    loan.store(alloc, 1, 5)?;
    loan.store(alloc, 3, 8)?;
    let (kept, stored) = (loan.load(2), loan.load(3));
    prove!(kept == 9 && stored == 8);
    loan.list_writes();
    let writes = loan.writes();
    prove!(writes.len() == 2);
    prove!(writes[0] == (1, 5) && writes[1] == (3, 8));
    block.take_back(Guid(5), loan);
    let (first, second) = (block.load(0), block.load(1));
    prove!(first == 0 && second == 5);
    let (third, last) = (block.load(2), block.load(3));
    prove!(third == 9 && last == 8);
    let (nobody, size) = (block.borrower(), block.words());
    prove!(nobody.is_none());
    prove!(size == 4);
    Ok(())
}

#[test]
fn a_loan_brings_its_writes_back(rt: HostRuntime) -> Result<(), Fail> {
    let alloc = rt.alloc();
    let mut block = Block::new(alloc, 4, Guid::NULL)?;
    has_the_words_of_a_loan(alloc, &mut block)?;
    Ok(())
}

// The given writes take the place of those that the loan keeps, and one past the last word is none.
fn has_the_given_writes(alloc: Global, block: &mut Block) -> Result<(), NoMemory>
    requires { block.old ≡ state_of 2 0 [] }
{
    block.store(0, 9);
    let granted = block.ask(alloc, Guid(5), Mode::Ew)?;
    prove!(granted == Asked::Granted);
    let mut loan = block.lend(Guid(5));
    loan.store(alloc, 0, 7)?;
    block.take_back_with(Guid(5), loan, &[(1, 5), (2, 6)]);
    let (nobody, size) = (block.borrower(), block.words());
    prove!(nobody.is_none());
    prove!(size == 2);
    let (first, second) = (block.load(0), block.load(1));
    prove!(first == 9 && second == 5);
    Ok(())
}

#[test]
fn a_loan_brings_given_writes_back_in_place_of_its_own(rt: HostRuntime) -> Result<(), Fail> {
    let alloc = rt.alloc();
    let mut block = Block::new(alloc, 2, Guid::NULL)?;
    has_the_given_writes(alloc, &mut block)?;
    Ok(())
}

fn lends_a_copy(alloc: Global, block: &mut Block) -> Result<(), NoMemory>
    requires { block.old ≡ state_of 2 0 [] }
{
    block.store(1, 6);
    let granted = block.ask(alloc, Guid(5), Mode::Const)?;
    prove!(granted == Asked::Granted);
    let grantable = block.grantable(Mode::Ew);
    prove!(!grantable);
    let loan = block.lend_const(alloc, Guid(5))?;
    block.store(1, 7);
    let (copied, writes) = (loan.load(1), loan.writes());
    prove!(copied == 6);
    prove!(writes.len() == 0);
    block.take_back(Guid(5), loan);
    let now = block.load(1);
    prove!(now == 7);
    Ok(())
}

#[test]
fn a_copy_shows_the_words_from_its_beginning(rt: HostRuntime) -> Result<(), Fail> {
    let alloc = rt.alloc();
    let mut block = Block::new(alloc, 2, Guid::NULL)?;
    lends_a_copy(alloc, &mut block)?;
    Ok(())
}

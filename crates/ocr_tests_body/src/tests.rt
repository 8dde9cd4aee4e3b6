ghost use Rattle.std.specs.Prelude.{◌≡◌, [], IfOk};
ghost use Rattle.ocr_tests_body.specs.Served.{IsFitting};

use super::*;
use ocr_acquire::Mode;
use ocr_body_meaning::BodyStop;
use ocr_body_steps::Api;
use ocr_datablock::Block;
use ocr_guid::Guid;
use std::alloc::Global;
use std::test::Fail;

const EDT: Guid = Guid(3);

// A block of the words 5, 6 and 7, as it is held in this mode.
fn held_in(alloc: Global, mode: Mode) -> Result<Hold, Fail>
    ensures { IfOk result IsFitting }
{
    let mut block = Block::new(alloc, 3, Guid::NULL)?;
    block.store(0, 5);
    block.store(1, 6);
    block.store(2, 7);
    match mode {
        Mode::Ew => {
            let _ = block.ask(alloc, EDT, Mode::Ew)?;
            Ok(Hold::Lent(block.lend(EDT)))
        }
        Mode::Const => {
            let _ = block.ask(alloc, EDT, Mode::Const)?;
            Ok(Hold::Lent(block.lend_const(alloc, EDT)?))
        }
        Mode::Rw => Ok(Hold::Shared(Mode::Rw, vec![in alloc; 5, 6, 7]?)),
        Mode::Ro => Ok(Hold::Shared(Mode::Ro, vec![in alloc; 5, 6, 7]?)),
        Mode::Null => Ok(Hold::Shared(Mode::Null, vec![in alloc; 5, 6, 7]?)),
    }
}

// Block 9 is held, and the body makes this access.
fn api_of(alloc: Global, hold: Hold, access: Access) -> OneHold
    ensures hold { result.hold ≡ hold }
    ensures access { result.access ≡ access }
    ensures entries { result.entries.items ≡ [] }
{
    OneHold {
        alloc,
        block: Guid(9),
        hold,
        access,
        entries: Vec::new(alloc),
        closings: 0,
    }
}

// What a load answers, and how many entries it makes.
#[tactic(auto, using(crate::proofs::Entries::next_load))]
fn load(
    alloc: Global,
    mode: Mode,
    block: u64,
    word: u64,
) -> Result<(Result<u64, BodyStop>, usize), Fail> {
    let mut api = api_of(alloc, held_in(alloc, mode)?, Access::Load(block, word));
    let answer = api.load(Guid(block), word);
    Ok((answer, api.entries.len()))
}

// What a store of 8 answers, and how many entries it makes.
#[tactic(auto, using(crate::proofs::Entries::next_store))]
fn store(
    alloc: Global,
    mode: Mode,
    block: u64,
    word: u64,
) -> Result<(Result<(), BodyStop>, usize), Fail> {
    let mut api = api_of(alloc, held_in(alloc, mode)?, Access::Store(block, word, 8));
    let answer = api.store(Guid(block), word, 8);
    Ok((answer, api.entries.len()))
}

#[test]
fn a_load_finds_the_word_or_a_fault_in_each_mode_at_each_edge(rt: HostRuntime) -> Result<(), Fail> {
    let alloc = rt.alloc();
    let rows = [
        (Mode::Ew, 9, 0, Ok(5), 0),
        (Mode::Ew, 9, 2, Ok(7), 0),
        (Mode::Ew, 9, 3, Err(BodyStop::BadIndex), 0),
        (Mode::Ew, 8, 0, Err(BodyStop::NotHeld), 0),
        (Mode::Const, 9, 2, Ok(7), 0),
        (Mode::Const, 9, 3, Err(BodyStop::BadIndex), 0),
        (Mode::Rw, 9, 2, Ok(7), 1),
        (Mode::Rw, 9, 3, Err(BodyStop::BadIndex), 0),
        (Mode::Rw, 8, 3, Err(BodyStop::NotHeld), 0),
        (Mode::Ro, 9, 0, Ok(5), 1),
        (Mode::Ro, 9, u64::MAX, Err(BodyStop::BadIndex), 0),
    ];
    for (mode, block, word, answer, entries) in rows {
        assert_eq!(rt; load(alloc, mode, block, word)?, (answer, entries));
    }
    Ok(())
}

#[test]
fn a_store_is_done_or_a_fault_in_each_mode_at_each_edge(rt: HostRuntime) -> Result<(), Fail> {
    let alloc = rt.alloc();
    let rows = [
        (Mode::Ew, 9, 2, Ok(()), 0),
        (Mode::Ew, 9, 3, Err(BodyStop::BadIndex), 0),
        (Mode::Ew, 8, 3, Err(BodyStop::NotHeld), 0),
        (Mode::Const, 9, 0, Err(BodyStop::NotWritable), 0),
        (Mode::Const, 9, 3, Err(BodyStop::NotWritable), 0),
        (Mode::Const, 8, 3, Err(BodyStop::NotHeld), 0),
        (Mode::Rw, 9, 2, Ok(()), 1),
        (Mode::Rw, 9, 3, Err(BodyStop::BadIndex), 0),
        (Mode::Ro, 9, 2, Err(BodyStop::NotWritable), 0),
        (Mode::Ro, 9, 3, Err(BodyStop::NotWritable), 0),
        (Mode::Ro, 8, 2, Err(BodyStop::NotHeld), 0),
    ];
    for (mode, block, word, answer, entries) in rows {
        assert_eq!(rt; store(alloc, mode, block, word)?, (answer, entries));
    }
    Ok(())
}

// What a load finds of what is on loan.
#[tactic(auto, using(crate::proofs::Entries::never_loaded))]
fn load_again(api: &mut OneHold, word: u64) -> Result<u64, BodyStop>
    requires { IsFitting api.old.hold }
    ensures { IsFitting api.new.hold }
{
    let Hold::Lent(_) = &api.hold else {
        return Err(BodyStop::NotHeld)
    };
    let block = api.block;
    api.load(block, word)
}

#[test]
#[tactic(auto, using(crate::proofs::Entries::next_store))]
fn a_load_in_ew_finds_what_was_stored(rt: HostRuntime) -> Result<(), Fail> {
    let alloc = rt.alloc();
    let mut api = api_of(alloc, held_in(alloc, Mode::Ew)?, Access::Store(9, 2, 8));
    assert_eq!(rt; api.store(Guid(9), 2, 8), Ok(()));
    assert_eq!(rt; load_again(&mut api, 2), Ok(8));
    assert_eq!(rt; load_again(&mut api, 1), Ok(6));
    assert_eq!(rt; (api.entries.len(), api.closings()), (0, 0));
    Ok(())
}

// An Api whose EDT holds some blocks on loan, each found by its GUID in a short list. It makes no
// entries: its run is closed to all other calls.
ghost use Rattle.std.specs.Prelude.{◌≡◌, ◌==◌, position};

use ocr_body::{Answer, BodyStop, Call, Checked};
use ocr_body_steps::Api;
use ocr_datablock::Lent;
use ocr_guid::Guid;
use ocr_tests_body::{load_lent, raised, store_lent};
use std::alloc::Global;

/// A block and its words.
#[derive(Drop)]
pub struct Held {
    pub block: Guid,
    pub loan: Lent,
}

/// The body that is served, the blocks that it holds, and how often the run was found closed.
#[derive(Drop)]
pub struct Lending<'a> {
    pub alloc: Global,
    pub program: &'a Checked,
    pub deps: &'a [Guid],
    pub fuel: u64,
    pub held: Vec<Held>,
    pub closings: u64,
}

// The place of a block that is held.
#[inline(always)]
fn place_of(held: &[Held], block: Guid) -> Option<usize>
    ensures { result ≡ position (λ h. h.block == block) held.now }
{
    held.iter().position(|h| h.block == block)
}

impl<'a> Api for Lending<'a> {
    ghost use Rattle.std.specs.Prelude.{[]};
    ghost use Rattle.ocr_bench_body.specs.Loans.{AreIsolated, body_of, held_in};
    ghost use Rattle.ocr_tests_body.specs.Served.{lent_hold};

    type Kept = &'a Checked;

    ghost serves = { λ l. body_of l };

    ghost log = { λ _. [] };

    ghost holds = { λ l. held_in lent_hold l.held.items };

    ghost is_ready = { λ l. AreIsolated l.held.items };

    ghost kept = { λ l. l.program };

    ghost closed = { λ l. l.closings };

    #[tactic(auto, using(ocr_tests_body::proofs::Entries::closed_refused))]
    fn call(&mut self, _call: &Call) -> Result<Answer, BodyStop> {
        self.closings = raised(self.closings);
        Err(BodyStop::Closed)
    }

    #[inline(always)]
    fn load(&mut self, block: Guid, word: u64) -> Result<u64, BodyStop> {
        let Some(place) = place_of(&self.held, block) else {
            return Err(BodyStop::NotHeld)
        };
        load_lent(&self.held[place].loan, word)
    }

    #[inline(always)]
    fn store(&mut self, block: Guid, word: u64, value: u64) -> Result<(), BodyStop> {
        let Some(place) = place_of(&self.held, block) else {
            return Err(BodyStop::NotHeld)
        };
        store_lent(self.alloc, &mut self.held[place].loan, word, value)
    }

    fn closings(&self) -> u64 {
        self.closings
    }
}

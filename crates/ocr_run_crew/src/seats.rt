// The seats of the workers.
ghost use Rattle.std.specs.Prelude.{◌≡◌, ◌≢◌, ◌≤◌, ◌+◌, ◌++◌, ◌∷◌, [], ℕ, IfOk, OnOk, vec_len};
ghost use Rattle.ocr_steal.specs.Hand.{IsSame, own};
ghost use Rattle.ocr_steal.specs.Pool.{AreFresh, deques_in, hands_in};
ghost use Rattle.ocr_turns_rule.specs.Units.{units};
ghost use Rattle.ocr_run_crew.specs.Seats.{AreSeats, IsGathering, IsHiring};

use crossbeam_utils::CachePadded;
use ocr_base::NoMemory;
use ocr_guid::Guid;
use ocr_live::lower;
use ocr_machine_history::MAIN_EDT;
use ocr_steal::Hand;
use ocr_turns::Clerk;
use ocr_worker_clerk::{Gate, Job, Ocr};
use std::alloc::Global;
use std::sync::Wait;

/// A worker that goes to work: its number, from 1, its clerk and its hand.
#[derive(Drop)]
pub struct Seat {
    pub worker: u32,
    pub clerk: Clerk<Ocr>,
    pub hand: Hand,
}

// A hand as its worker goes to work with it: in the deque of the first one stands the EDT that is
// ready at the opening.
fn begun(alloc: Global, mut hand: Hand) -> Result<Hand, NoMemory>
    ensures same { IfOk result (λ h. IsSame hand h) }
    ensures first { IfOk result (λ h. hand.number ≡ 0
        → own h ≡ record (own hand) { pushed = (own hand).pushed ++ 2 ∷ [] }) }
    ensures others { IfOk result (λ h. hand.number ≢ 0 → h ≡ hand) }
{
    if hand.number() == 0 {
        hand.push(alloc, Guid(MAIN_EDT))?;
    }
    Ok(hand)
}

/// A seat for each hand of the pool, each with a clerk that the root makes. The first begins with
/// the EDT that is ready at the opening. The root gives up its unit then.
pub(crate) fn hire<R: Wait, G: Gate>(
    alloc: Global,
    job: &Job<R, G>,
    root: &mut Clerk<Ocr>,
    hands: Vec<Hand>,
) -> Result<Vec<CachePadded<Seat>>, NoMemory>
    requires root { IsHiring job.now.turns.now job.now.program.now 0 root.old }
    requires quota { vec_len hands ≤ root.old.view.quota }
    requires hands { (room : ℕ) × AreFresh (deques_in job.now.pool.now) room hands.items }
    requires few { vec_len hands ≤ 64 }
    ensures root { IfOk result (λ seats. (workers : ℕ) → IsGathering job.now.turns.now workers
        (vec_len seats) 0 root.new) }
    ensures unit { OnOk result (units root.new.view ≡ 0) }
    ensures many { IfOk result (λ seats. vec_len seats ≡ vec_len hands) }
    ensures seats { IfOk result (λ seats. AreSeats job.now.turns.now job.now.program.now
        job.now.pool.now seats.items) }
{
    let mut seats = Vec::new(alloc);
    for hand in hands {
        let hand = begun(alloc, hand)?;
        let clerk = job.turns.split(alloc, root)?;
        let worker = hand.number() + 1;
        seats.push(CachePadded::new(Seat {
            worker,
            clerk,
            hand,
        }))?;
    }
    // No worker reads that all is done while the root has its unit.
    lower(job.turns, root, 1);
    Ok(seats)
}

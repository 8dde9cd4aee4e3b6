// What a body calls.
ghost use Rattle.std.specs.Prelude.{◌≡◌, ◌∷◌, List, ℕ, false, IfOk, OnOk, OnErr, IfErr};
ghost use Rattle.ocr_base.specs.Count.{Rose};
ghost use Rattle.ocr_body_meaning.specs.Behaviour.{Asked, IsNextWith};
ghost use Rattle.ocr_body_meaning.specs.Body.{Body, says};
ghost use Rattle.ocr_body_meaning.specs.Call.{is_access};
ghost use Rattle.ocr_body_meaning.specs.Holds.{Holds, load_of, store_of, after_store, private_of};
ghost use Rattle.ocr_body_meaning.specs.Holds.{after_call};
ghost use Rattle.ocr_body_steps.specs.Api.{Serves, IsRefusal, IsNextWhereEntered, IsAccessed};
ghost use Rattle.ocr_body_steps.specs.Api.{IsAccessStop};

use ocr_body_meaning::{Answer, BodyStop, Call};
use ocr_guid::Guid;

/// The machine, as one body sees it.
pub trait Api {
    /// What the implementation is of.
    type Kept;

    /// The body that it serves.
    ghost serves: { Self → Body };

    /// The calls that the body made so far and that are entries, each with its answer, the newest
    /// first.
    ghost log: { Self → List Asked };

    /// What its EDT holds now, and what it stored there.
    ghost holds: { Self → Holds };

    /// What the implementation needs before each call, and keeps.
    ghost is_ready: { Self → Type 0 };

    /// What the implementation is of, the same after every call.
    ghost kept: { Self → Self.Kept };

    /// How often the run was found closed.
    ghost closed: { Self → ℕ };

    /// Makes the call that the body makes next, any but a load and a store, with the private writes
    /// of the hold that it ends. It is refused as `Closed` only where the run was found closed in
    /// this call, or for want of memory.
    fn call(&mut self, call: &Call) -> Result<Answer, BodyStop>
        requires ready { is_ready self.old }
        requires plain { is_access call.now ≡ false }
        requires next { IsNextWith call.now (private_of call.now (holds self.old))
            (says (serves self.old) (log self.old)) }
        ensures serves { Serves is_ready serves kept closed self.old self.new }
        ensures ok { IfOk result (λ a.
            log self.new ≡ record { call = call.now; answer = a } ∷ log self.old) }
        ensures holds { IfOk result (λ a.
            holds self.new ≡ after_call call.now a (holds self.old)) }
        ensures err { OnErr result (log self.new ≡ log self.old) }
        ensures refused { IfErr result (IsRefusal (Rose (closed self.old) (closed self.new))) };

    /// Loads a word of a block. Where the block is held in `Rw` or `Ro` and has the word, it is an
    /// entry, and what the body does next. `NotHeld` where the block is not held, `BadIndex` where
    /// it has no such word; else it is refused as a call is.
    fn load(&mut self, block: Guid, word: u64) -> Result<u64, BodyStop>
        requires ready { is_ready self.old }
        requires next { IsNextWhereEntered (load_of (holds self.old block) word)
            (Call.Load block word) (says (serves self.old) (log self.old)) }
        ensures serves { Serves is_ready serves kept closed self.old self.new }
        ensures ok { IfOk result (λ v. IsAccessed (load_of (holds self.old block) word)
            (Call.Load block word) v (log self.old) (log self.new)) }
        ensures holds { OnOk result (holds self.new ≡ holds self.old) }
        ensures err { OnErr result (log self.new ≡ log self.old) }
        ensures refused { IfErr result (IsAccessStop (load_of (holds self.old block) word)
            (Rose (closed self.old) (closed self.new))) };

    /// Stores a value in a word of a block. Where the block is held in `Rw` and has the word, it is
    /// an entry, and what the body does next. `NotHeld` where the block is not held, `NotWritable`
    /// where it is held in `Ro` or `Const`, `BadIndex` where it has no such word; else it is
    /// refused as a call is.
    fn store(&mut self, block: Guid, word: u64, value: u64) -> Result<(), BodyStop>
        requires ready { is_ready self.old }
        requires next { IsNextWhereEntered (store_of (holds self.old block) word)
            (Call.Store block word value) (says (serves self.old) (log self.old)) }
        ensures serves { Serves is_ready serves kept closed self.old self.new }
        ensures ok { OnOk result (IsAccessed (store_of (holds self.old block) word)
            (Call.Store block word value) 0 (log self.old) (log self.new)) }
        ensures holds { OnOk result (holds self.new
            ≡ after_store (store_of (holds self.old block) word) block word value
            (holds self.old)) }
        ensures err { OnErr result (log self.new ≡ log self.old) }
        ensures refused { IfErr result (IsAccessStop (store_of (holds self.old block) word)
            (Rose (closed self.old) (closed self.new))) };

    /// How often the run was found closed. The count never falls.
    fn closings(&self) -> u64
        ensures { result ≡ closed self.now };
}

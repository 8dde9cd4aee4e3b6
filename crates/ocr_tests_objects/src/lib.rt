//! Tests of the objects, each by its calls alone: modes and plans, slots, templates, EDTs, finish
//! scopes, events of each kind, and data blocks with who holds one, who waits for it, and loans.
//!
//! What a call answers is mostly claimed by `prove!`: it is proved by the contracts of the calls
//! that come before it and by nothing else, so no body that answers otherwise there meets its
//! contract. That the calls answer at all, with ample memory, is seen as the tests run, and so is
//! what is asserted.
#![tactic(auto)]

#[cfg(test)]
mod acquire;
#[cfg(test)]
mod any_event;
#[cfg(test)]
mod blocks;
#[cfg(test)]
mod channel_event;
#[cfg(test)]
mod codes;
#[cfg(test)]
mod edt;
#[cfg(test)]
mod event;
#[cfg(test)]
mod finish;
#[cfg(test)]
mod latch;
#[cfg(test)]
mod sent;
#[cfg(test)]
mod slots;
#[cfg(test)]
mod template;

// What is measured: programs, each with the journal of a run.
use crate::blocks::{DOOMED, HOLDS, QUEUE, READERS, doomed, holds, queue, readers};
use crate::events::{
    CHAIN, DELIVERIES, FAN, LATCHES, LINKS, PAYLOADS, chain, deliveries, fan, latches, links,
    payloads,
};
use crate::journal::Journal;
use crate::prints::{PRINTS, TURNS, prints, turns};
use crate::scopes::{GROUPS, MEMBERS, NESTED, groups, members, nested};
use ocr_base::NoMemory;
use std::alloc::Global;

#[derive(Clone, Copy)]
pub(crate) enum Case {
    Prints,
    Turns,
    Fan,
    Payloads,
    Links,
    Latches,
    Deliveries,
    Chain,
    Queue,
    Doomed,
    Readers,
    Holds,
    Groups,
    Nested,
    Members,
}

/// The cases with their names.
pub(crate) const CASES: [(&str, Case); 15] = [
    ("prints", Case::Prints),
    ("turns", Case::Turns),
    ("fan", Case::Fan),
    ("payloads", Case::Payloads),
    ("links", Case::Links),
    ("latch", Case::Latches),
    ("deliveries", Case::Deliveries),
    ("chain", Case::Chain),
    ("queue", Case::Queue),
    ("doomed", Case::Doomed),
    ("readers", Case::Readers),
    ("holds", Case::Holds),
    ("groups", Case::Groups),
    ("nested", Case::Nested),
    ("members", Case::Members),
];

pub(crate) fn text_of(case: Case) -> &'static str {
    match case {
        Case::Prints => PRINTS,
        Case::Turns => TURNS,
        Case::Fan => FAN,
        Case::Payloads => PAYLOADS,
        Case::Links => LINKS,
        Case::Latches => LATCHES,
        Case::Deliveries => DELIVERIES,
        Case::Chain => CHAIN,
        Case::Queue => QUEUE,
        Case::Doomed => DOOMED,
        Case::Readers => READERS,
        Case::Holds => HOLDS,
        Case::Groups => GROUPS,
        Case::Nested => NESTED,
        Case::Members => MEMBERS,
    }
}

pub(crate) fn journal_of(alloc: Global, case: Case, size: u32) -> Result<Journal, NoMemory> {
    match case {
        Case::Prints => prints(alloc, size),
        Case::Turns => turns(alloc, size),
        Case::Fan => fan(alloc, size),
        Case::Payloads => payloads(alloc, size),
        Case::Links => links(alloc, size),
        Case::Latches => latches(alloc, size),
        Case::Deliveries => deliveries(alloc, size),
        Case::Chain => chain(alloc, size),
        Case::Queue => queue(alloc, size),
        Case::Doomed => doomed(alloc, size),
        Case::Readers => readers(alloc, size),
        Case::Holds => holds(alloc, size),
        Case::Groups => groups(alloc, size),
        Case::Nested => nested(alloc, size),
        Case::Members => members(alloc, size),
    }
}

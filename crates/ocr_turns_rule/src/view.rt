// What the rule sees of a seat. No value of `View` is made.
use crate::debts::Debts;
use std::collections::LinkedList;
use std::snapshot::Snapshot;

/// What a table is told once: the setting of its machine, the greatest number of an object, the
/// weight that one log may reach, and how many clerks there may be in all.
#[derive(Drop)]
pub struct Terms<G> {
    pub setting: Snapshot<G>,
    pub limit: u64,
    pub share: u64,
    pub seats: u64,
}

/// What a clerk knows of the table, for proofs alone.
pub struct View<G, E, P, N, F> {
    /// What the table was told; None once it was joined into another.
    pub terms: Option<Terms<G>>,
    /// Its own entries with their numbers.
    pub log: LinkedList<(u64, E)>,
    /// The logs of clerks that were joined into it.
    pub joined: LinkedList<LinkedList<(u64, E)>>,
    /// The parts that it keeps, by place.
    pub parts: LinkedList<(u64, P)>,
    /// The undelivered messages that it owes, each by its entry's number and its index there.
    pub owed: LinkedList<(u64, u32, N)>,
    /// The standing facts that it learnt.
    pub facts: LinkedList<F>,
    /// The numbers that it drew and did not use.
    pub drawn: LinkedList<u64>,
    /// The count that it read where no number was left.
    pub full: Option<u64>,
    /// Such a count that it or a clerk joined into it read.
    pub reached: Option<u64>,
    /// How many clerks, joined ones among them, read such a count.
    pub filled: u64,
    /// How many entries that end the run it made.
    pub ended: u64,
    /// The place whose slot it has in hand, within a step.
    pub carried: Option<u64>,
    /// What its log weighs.
    pub weight: u64,
    /// How many clerks it stands for.
    pub seats: u64,
    /// How many clerks it may still make.
    pub quota: u64,
    /// How many of those that it stands for learnt that the run has ended.
    pub shut: u64,
    /// The commit word that it or a clerk joined into it read past the end of the run.
    pub closed: Option<u64>,
    /// 1 for the root, else 0.
    pub root: u64,
    /// 1 for another clerk that is not joined, else 0.
    pub seat: u64,
    /// How many such clerks are out, in the root; else 0.
    pub out: u64,
    /// What it owes to the words that count.
    pub debts: Debts,
    /// The EDTs that it has claimed.
    pub claims: LinkedList<u64>,
    /// Its units that stand for nothing yet.
    pub spares: u64,
    /// What it raised the live word by.
    pub raised: u64,
    /// What the clerks that were joined into it raised it by.
    pub gained: u64,
    /// The live word, as it read it last.
    pub live: Option<u64>,
    /// How many entries it read once it had read the live word as 0.
    pub quiet: Option<u64>,
}

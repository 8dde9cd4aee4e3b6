//! Tests of runs by one, two and four workers: what comes of them, and their journals replayed, as
//! they are and changed.
#![tactic(auto)]

#[cfg(test)]
mod edits;
#[cfg(test)]
mod events;
#[cfg(test)]
mod gates;
#[cfg(test)]
mod journals;
#[cfg(test)]
mod limits;
#[cfg(test)]
mod quiet;
#[cfg(test)]
mod races;
#[cfg(test)]
mod replays;
#[cfg(test)]
mod resumes;
#[cfg(test)]
mod runs;
#[cfg(test)]
mod scopes;
#[cfg(test)]
mod sleepers;
#[cfg(test)]
mod stencil;
#[cfg(test)]
mod stops;
#[cfg(test)]
mod units;
#[cfg(test)]
mod workers;

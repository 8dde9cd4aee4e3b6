//! Tests of the text of a journal and of the reports, against texts written by hand.
#![tactic(auto)]

#[cfg(test)]
mod blocks;
#[cfg(test)]
mod journals;
#[cfg(test)]
mod races;
#[cfg(test)]
mod reports;

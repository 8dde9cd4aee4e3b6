//! Tests of what knows nothing of OCR: counts and lists, sources and sinks, and the words of the
//! command line.
#![tactic(auto)]

#[cfg(test)]
mod count;
#[cfg(test)]
mod seq;
#[cfg(test)]
mod streams;
#[cfg(test)]
mod words;

//! Tests of task texts: how one is cut into tokens, what a call and a symbol are to the grammar,
//! where a text stops, what its canonical text is, and which names the editors know.
#![tactic(auto)]

#[cfg(test)]
mod canonical;
#[cfg(test)]
mod editors;
#[cfg(test)]
mod grammar;
#[cfg(test)]
mod highlights;
#[cfg(test)]
mod inputs;
#[cfg(test)]
mod stencil;
#[cfg(test)]
mod stops;
#[cfg(test)]
mod texts;
#[cfg(test)]
mod tokens;

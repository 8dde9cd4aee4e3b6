// What the workers of a run share.
use crate::gate::Gate;
use crate::ocr::Ocr;
use ocr_body_code::Checked;
use ocr_steal::Pool;
use ocr_turns::Turns;
use std::sync::Wait;

/// What the workers of a run share: the runtime, the program, the table of turns, the deques of
/// ready EDTs, and the gate.
#[derive(Drop)]
pub struct Job<'a, R: Wait, G: Gate> {
    pub rt: &'a R,
    pub program: &'a Checked,
    pub turns: &'a Turns<Ocr>,
    pub pool: &'a Pool,
    pub gate: &'a G,
}

// What a run is of.
use ocr_body_code::Checked;

/// What legality rests on besides the history: the program, and the arguments that it is given.
#[derive(Drop)]
pub struct Setting {
    pub program: Checked,
    pub args: Vec<u64>,
}

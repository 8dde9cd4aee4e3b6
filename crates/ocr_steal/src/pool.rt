// The deques of all hands.
ghost use Rattle.std.specs.Prelude.{◌<◌, ◌^◌, length};
ghost use Rattle.ocr_steal.specs.Parts.{AreFirstInFirstOut};

use crate::account::Theirs;
use crate::bell::Bell;

/// The deques from which the hands steal, and the bell for those that find nothing there.
#[derive(Drop)]
pub struct Pool {
    pub(crate) stealers: Vec<Theirs>,
    pub bell: Bell,
    ghost few: { length stealers.items < 2 ^ 32 },
    ghost order: { AreFirstInFirstOut stealers.items },
}

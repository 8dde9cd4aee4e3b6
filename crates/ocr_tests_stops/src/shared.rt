// What workers share and hand to one another, type by type: all of it at once is more than the
// prover looks through at a call.
ghost use Rattle.std.specs.Thread.{IsSend, IsSync};
ghost use Rattle.ocr_body_code.specs.contracts.checked.Checked.{the_row as program_row};
ghost use Rattle.ocr_machine_parts.specs.contracts.part.Part.{the_row as part_row};

use ocr_body_code::Checked;
use ocr_machine_parts::Part;

/// Several threads may read a program.
pub(crate) fn programs_are_shared()
    ensures { IsSync program_row }
{
    is_shared::<Checked>();
}

/// A part may go from one thread to another.
pub(crate) fn parts_move()
    ensures { IsSend part_row }
{
    moves::<Part>();
}

fn is_shared<T: Sync>()
    ensures { IsSync T.row }
{}

fn moves<T: Send>()
    ensures { IsSend T.row }
{}

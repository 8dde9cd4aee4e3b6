// Whether a message could be delivered now.
ghost use Rattle.ocr_machine_state.specs.State.{state_in};
ghost use Rattle.ocr_replay_legality.specs.Tests.{Whether};
ghost use Rattle.ocr_replay.specs.Stops.{Delivers, RowDelivers, MailDelivers};

use ocr_machine_history::What;
use ocr_machine_state::State;
use ocr_replay_body::Mail;
use ocr_replay_legality::can_deliver;

fn delivers(table: &State, message: Option<What>) -> bool
    ensures { Whether result (Delivers (state_in table.now) message) }
{
    match message {
        Some(message) => can_deliver(table, message),
        None => false,
    }
}

/// Whether some of these messages of an entry could be delivered now.
fn row_delivers(table: &State, row: &[Option<What>]) -> bool
    ensures { Whether result (RowDelivers (state_in table.now) row.now) }
{
    for message in row {
        if delivers(table, *message) {
            return true;
        }
    }
    false
}

/// Whether some message that was sent and not delivered could be delivered now.
pub(crate) fn mail_delivers(table: &State, mail: &Mail) -> bool
    ensures { Whether result (MailDelivers (state_in table.now) mail.now) }
{
    for place in 0..mail.entries() {
        if row_delivers(table, mail.row(place)) {
            return true;
        }
    }
    false
}

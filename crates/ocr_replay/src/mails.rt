// The messages of a replay.
ghost use Rattle.std.specs.Prelude.{◌≡◌};
ghost use Rattle.ocr_replay.specs.Replay.{mail_after, CanDeliver};

use ocr_machine_history::Entry;
use ocr_replay_body::Mail;

/// What an entry delivers is delivered.
pub(crate) fn deliver(mail: &mut Mail, entry: &Entry)
    requires { CanDeliver entry.now mail.old }
    ensures { mail.new ≡ mail_after entry.now mail.old }
{
    if let Entry::Deliver { message, code: _ } = entry {
        mail.deliver(message.place, message.index);
    }
}

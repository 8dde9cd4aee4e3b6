// A body that stops the run.
ghost use Rattle.std.specs.Prelude.{◌≡◌, ◌⊎◌, Some, is_some, true};
ghost use Rattle.ocr_body_meaning.specs.Behaviour.{Stops};
ghost use Rattle.ocr_body_meaning.specs.Body.{Body, says};
ghost use Rattle.ocr_body_meaning.specs.Laws.{IsSaid};
ghost use Rattle.ocr_worker_clerk.specs.Work.{AtWork, IsGone, Stays, stop_in};
ghost use Rattle.ocr_worker_access.specs.Served.{Serves, own_log};
ghost use Rattle.ocr_worker_access.specs.Stops.{stop_for};

use ocr_body_meaning::BodyStop;
use ocr_guid::Guid;
use ocr_machine_history::{Fault, Stop};
use ocr_turns::Clerk;
use ocr_worker_clerk::{Gate, Job, Ocr, Over, close};
use std::sync::Wait;

/// Ends the run where the body of the EDT says so: a shutdown, an abort or a fault. This Stop is in
/// the log then, unless the run had ended before.
pub fn stop_run<R: Wait, G: Gate>(
    job: &Job<R, G>,
    worker: u32,
    clerk: &mut Clerk<Ocr>,
    edt: Guid,
    stop: BodyStop,
) -> Over
    ghost b: { Body }
    requires work { AtWork job.now.turns.now job.now.program.now clerk.old }
    requires serves { Serves job.now.turns.now.1 clerk.old.view edt b }
    requires own { IsSaid stop }
    requires says { says b (own_log clerk.old.view.log edt) ≡ Stops stop }
    ensures stays { Stays clerk.old clerk.new }
    ensures gone { IsGone job.now.turns.now worker clerk.new }
    ensures made { (is_some clerk.new.view.closed ≡ true)
        ⊎ (stop_in clerk.new.view.log ≡ Some (stop_for edt stop)) }
{
    close(job, worker, clerk, stop_of(edt, stop))
}

// The stop of a run where the body of the EDT stopped so.
fn stop_of(edt: Guid, stop: BodyStop) -> Stop
    requires { IsSaid stop }
    ensures { result ≡ stop_for edt stop }
{
    match stop {
        BodyStop::Shutdown => Stop::Shutdown { edt },
        BodyStop::Abort(code) => Stop::Abort { edt, code },
        BodyStop::ZeroDivisor => fault(edt, Fault::ZeroDivisor),
        BodyStop::BadIndex => fault(edt, Fault::BadIndex),
        BodyStop::NotHeld => fault(edt, Fault::NotHeld),
        BodyStop::NotWritable => fault(edt, Fault::NotWritable),
        BodyStop::Fuel => fault(edt, Fault::Fuel),
        BodyStop::Closed | BodyStop::NoMemory => unreachable!(),
    }
}

fn fault(edt: Guid, fault: Fault) -> Stop
    ensures { result ≡ Stop.Fault edt fault }
{
    Stop::Fault { edt, fault }
}

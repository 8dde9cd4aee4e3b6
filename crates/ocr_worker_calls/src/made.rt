// The EDT that a call makes, as it is counted.
ghost use Rattle.std.specs.Prelude.{◌≡◌, ℕ, [], IfSome, IfNone};
ghost use Rattle.ocr_machine_history.specs.declared.entry.Entry.TheVariants as an;
ghost use Rattle.ocr_machine_parts.specs.declared.part.Part.TheVariants as part;
ghost use Rattle.ocr_machine_parts.specs.Taken.{look};
ghost use Rattle.ocr_worker_machine.specs.Ocr.{counts, slots_meant};
ghost use Rattle.ocr_worker_calls.specs.Calls.{IsLet, LetsMake};

use ocr_body_meaning::{Answer, Call};
use ocr_guid::{Code, Guid};
use ocr_machine_parts::Part;
use ocr_template::counts;

/// The EDT that an accepted call makes, with the number of its slots by the template among these
/// parts; None where it makes none.
pub(crate) fn edt_made(call: &Call, answer: &Answer, parts: &[(u64, Part)]) -> Option<(Guid, u32)>
    requires { IsLet call.now answer.now.code parts.now }
    ensures { (limit edt : ℕ)
        → result ≡ counts limit (an.Call edt 0 call.now answer.now []) parts.now }
{
    let Call::EdtCreate {
        template,
        paramc,
        params: _,
        depc,
        deps: _,
        flags: _,
        output: _,
    } = call
    else {
        return None;
    };
    match answer.code {
        Code::Done => Some((
            Guid(answer.value),
            slots_meant(parts, *template, *paramc, *depc),
        )),
        Code::Eperm | Code::Enoent | Code::Ebusy | Code::Einval | Code::Stale => None,
    }
}

// The number of slots of an EDT that is made from the template with these counts.
fn slots_meant(parts: &[(u64, Part)], template: u64, paramc: u64, depc: u64) -> u32
    requires { LetsMake (look parts.now template) paramc depc }
    ensures { result ≡ slots_meant (look parts.now template) depc }
{
    let Some(Part::Template(made)) = part_at(parts, template) else {
        unreachable!()
    };
    let Ok((_, slots)) = counts(made, paramc, depc) else {
        unreachable!()
    };
    slots
}

// The part of this number.
fn part_at<'a>(parts: &'a [(u64, Part)], number: u64) -> Option<&'a Part>
    ensures some { IfSome result (λ p. look parts.now number ≡ p.now) }
    ensures none { IfNone result (look parts.now number ≡ part.Vacant) }
{
    for i in 0..parts.len() {
        if parts[i].0 == number {
            return Some(&parts[i].1);
        }
    }
    None
}

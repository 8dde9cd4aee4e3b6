//! Templates of EDTs, and the counts that a creation gets from one.
#![tactic(auto)]

ghost use Rattle.std.specs.Prelude.{◌≡◌, ◌⊎◌, ◌↔◌, SomeIff, false};
ghost use Rattle.ocr_template.specs.Template.{count_meant, IsRefused, is_refused, counts_of};

pub use ocr_base::{EDT_PARAM_DEF, EDT_PARAM_UNK, MOST_DEPENDENCES, MOST_PARAMETERS};
use ocr_guid::Code;

/// What the EDTs that are made from it have in common: their function, and their counts of
/// parameters and dependences, each open where it is `EDT_PARAM_UNK`. A template is destroyed where
/// an accepted destruction names it.
#[derive(Clone, Copy, PartialEq, Eq, Debug)]
pub struct Template {
    /// The number of the function, from 1 in the order of the text.
    pub function: u32,
    /// Whether it was destroyed.
    pub destroyed: bool,
    /// The count of parameters, or `EDT_PARAM_UNK`.
    pub paramc: u64,
    /// The count of dependences, or `EDT_PARAM_UNK`.
    pub depc: u64,
}

/// How many parameters and dependences an EDT gets that is made from the template with these
/// counts: each count is the template's where `EDT_PARAM_DEF` is given, else the given one. EINVAL
/// exactly where the default is asked for a count that the template leaves open, a count is given
/// that differs from one that the template has not left open, or one is above its limit.
pub fn counts(template: &Template, paramc: u64, depc: u64) -> Result<(u32, u32), Code>
    ensures answer { result ≡ counts_of template.now paramc depc }
    ensures refused { (result ≡ Err Code.Einval)
        ↔ (IsRefused template.now.paramc paramc MOST_PARAMETERS
        ⊎ IsRefused template.now.depc depc MOST_DEPENDENCES) }
{
    match (
        count(template.paramc, paramc, MOST_PARAMETERS),
        count(template.depc, depc, MOST_DEPENDENCES),
    ) {
        (Some(paramc), Some(depc)) => Ok((paramc, depc)),
        _ => Err(Code::Einval),
    }
}

// One of the two counts, where it is not refused.
fn count(own: u64, given: u64, most: u32) -> Option<u32>
    ensures { SomeIff result (is_refused own given most ≡ false) (count_meant own given) }
{
    let is_default = given == EDT_PARAM_DEF;
    let is_open = own == EDT_PARAM_UNK;
    if is_default && is_open {
        return None;
    }
    if !is_default && !is_open && given != own {
        return None;
    }
    let meant = if is_default { own } else { given };
    if meant > u64::from(most) {
        return None;
    }
    Some(meant as u32)
}

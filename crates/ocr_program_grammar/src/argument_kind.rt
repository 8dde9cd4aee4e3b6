// What stands between the round brackets of a call.
ghost use Rattle.std.specs.Prelude.{◌≡◌};
ghost use Rattle.ocr_program_grammar.specs.Shape as spec;

use ocr_program_tree::CallName;

/// What stands at one place of a call's arguments.
#[derive(Clone, Copy, PartialEq, Eq, Debug)]
pub enum ArgumentKind {
    Value,
    /// A list of values.
    Values,
    /// The name of a function.
    NameOfFunction,
    /// A value, after which `, &` and a variable may stand.
    FlagsAndOutput,
}

/// The arguments that a call wants.
pub fn shape(call: CallName) -> &'static [ArgumentKind]
    ensures { result.now ≡ spec.shape call }
{
    match call {
        CallName::DbCreate => &[ArgumentKind::Value, ArgumentKind::Value],
        CallName::DbRelease => &[ArgumentKind::Value],
        CallName::DbDestroy => &[ArgumentKind::Value],
        CallName::EventCreate => &[ArgumentKind::Value, ArgumentKind::Value],
        CallName::EventCreateParams => {
            &[
                ArgumentKind::Value,
                ArgumentKind::Value,
                ArgumentKind::Value,
                ArgumentKind::Value,
                ArgumentKind::Value,
            ]
        }
        CallName::EventDestroy => &[ArgumentKind::Value],
        CallName::Satisfy => &[ArgumentKind::Value, ArgumentKind::Value],
        CallName::SatisfySlot => &[
            ArgumentKind::Value,
            ArgumentKind::Value,
            ArgumentKind::Value,
        ],
        CallName::AddDependence => &[
            ArgumentKind::Value,
            ArgumentKind::Value,
            ArgumentKind::Value,
            ArgumentKind::Value,
        ],
        CallName::TemplateCreate => &[
            ArgumentKind::NameOfFunction,
            ArgumentKind::Value,
            ArgumentKind::Value,
        ],
        CallName::TemplateDestroy => &[ArgumentKind::Value],
        CallName::EdtCreate => &[
            ArgumentKind::Value,
            ArgumentKind::Value,
            ArgumentKind::Values,
            ArgumentKind::Value,
            ArgumentKind::Values,
            ArgumentKind::FlagsAndOutput,
        ],
        CallName::Shutdown => &[],
        CallName::Abort => &[ArgumentKind::Value],
        CallName::Load => &[ArgumentKind::Value, ArgumentKind::Value],
        CallName::Store => &[
            ArgumentKind::Value,
            ArgumentKind::Value,
            ArgumentKind::Value,
        ],
    }
}

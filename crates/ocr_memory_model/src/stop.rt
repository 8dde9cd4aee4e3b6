// Why a run is not ordered.
use ocr_base::NoMemory;
use std::error::Error;
use std::fmt;

/// Why there is no order of a run's entries.
#[derive(Clone, Copy, PartialEq, Eq, Debug)]
pub enum OrderStop {
    /// There are more entries than are ordered.
    TooLong,
    /// Memory was refused.
    NoMemory,
}

impl From<NoMemory> for OrderStop {
    ghost use Rattle.std.specs.Prelude.{◌≡◌};
    ghost use Rattle.ocr_memory_model.specs.declared.stop.OrderStop.TheVariants as stop;

    ghost from_gives = { λ _ made. made ≡ stop.NoMemory };

    fn from(_refused: NoMemory) -> Self {
        OrderStop::NoMemory
    }
}

impl fmt::Display for OrderStop {
    ghost use Rattle.std.specs.Prelude.{Some};
    ghost use Rattle.ocr_memory_model.specs.Messages.{stop_text};

    ghost output = { λ stop. Some (stop_text stop) };

    fn fmt<W: fmt::Write>(&self, f: &mut fmt::Formatter<W>) -> fmt::Result {
        match self {
            OrderStop::TooLong => f.write_str("there are too many entries"),
            OrderStop::NoMemory => NoMemory.fmt(f),
        }
    }
}

impl Error for OrderStop {}

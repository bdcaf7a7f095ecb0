//! Why there are no orders of parts.

use ob_check::module_text::TextFault;
use ob_interface::NoMemory;
use ob_interface::scalar::Scalar;
use ob_mean::openings::OpenFault;
use ob_text_reading::RecordFault;
use wf_history::CallId;

/// Why there are no orders.
#[derive(Clone, Copy)]
pub enum PartsFault {
    /// The module's text is none.
    Text(TextFault),
    /// F1: the history's line is missing, or not of its form or place. Lines count from 1.
    Form(usize),
    /// O2: the module has no opening state, and no values were carried over.
    Open(OpenFault),
    /// X4: this call, the first of such, has fewer value arguments.
    Short(CallId),
    /// X1: up to the end of this call its part, which has this value, has no legal order, and before it has one.
    Illegal(CallId, Scalar),
    /// X2: there are more configurations of a part than were to be looked at.
    TooMany,
    /// Want of memory.
    NoMemory,
}

impl From<TextFault> for PartsFault {
    ghost use Rattle.std.specs.Prelude.{◌≡◌};
    ghost use Rattle.ob_object_search.specs.PartedFaults.{of_text};

    ghost from_gives = { λ e f. f ≡ of_text e };

    fn from(fault: TextFault) -> PartsFault {
        match fault {
            TextFault::NoMemory => PartsFault::NoMemory,
            other => PartsFault::Text(other),
        }
    }
}

impl From<RecordFault> for PartsFault {
    ghost use Rattle.std.specs.Prelude.{◌≡◌};
    ghost use Rattle.ob_object_search.specs.PartedFaults.{of_reading};

    ghost from_gives = { λ e f. f ≡ of_reading e };

    fn from(fault: RecordFault) -> PartsFault {
        match fault {
            RecordFault::Form(line) => PartsFault::Form(line),
            RecordFault::NoMemory => PartsFault::NoMemory,
        }
    }
}

impl From<OpenFault> for PartsFault {
    ghost use Rattle.std.specs.Prelude.{◌≡◌};
    ghost use Rattle.ob_object_search.specs.PartedFaults.{of_open};

    ghost from_gives = { λ e f. f ≡ of_open e };

    fn from(fault: OpenFault) -> PartsFault {
        match fault {
            OpenFault::NoMemory => PartsFault::NoMemory,
            other => PartsFault::Open(other),
        }
    }
}

impl From<NoMemory> for PartsFault {
    ghost use Rattle.std.specs.Prelude.{◌≡◌};
    ghost use Rattle.ob_object_search.specs.declared.fault.PartsFault.TheVariants as Faults;

    ghost from_gives = { λ _ e. e ≡ Faults.NoMemory };

    fn from(_: NoMemory) -> PartsFault {
        PartsFault::NoMemory
    }
}

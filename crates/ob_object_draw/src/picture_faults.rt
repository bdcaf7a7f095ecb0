//! Why there is no picture of a history.

use ob_check::module_text::TextFault;
use ob_interface::NoMemory;
use ob_object_search::SearchFault;
use ob_picture_chart::PictureFault;
use std::alloc::AllocError;
use thiserror::Error;

/// Why there is no picture of a history: the first fault, in the order of the variants, but that X2 and want of memory come behind N1.
#[derive(Clone, Copy, Debug, Error)]
pub enum DrawHistoryFault {
    /// The texts are no module and history of its object, or it is not known whether there is a legal order (X2), or memory is wanting.
    #[error("{0}")]
    Search(SearchFault),
    /// N1: a process is over 15, and a picture has 16 processes at most.
    #[error("N1")]
    Processes,
    /// I1 or I2: the history, as far as it is drawn, has no calls of the range, or more than a picture.
    #[error("{0}")]
    Calls(PictureFault),
}

impl From<SearchFault> for DrawHistoryFault {
    ghost use Rattle.std.specs.Prelude.{◌≡◌};
    ghost use Rattle.ob_object_draw.specs.declared.picture_faults.DrawHistoryFault.TheVariants as Faults;

    ghost from_gives = { λ e f. f ≡ Faults.Search e };

    fn from(fault: SearchFault) -> DrawHistoryFault {
        DrawHistoryFault::Search(fault)
    }
}

impl From<TextFault> for DrawHistoryFault {
    ghost use Rattle.std.specs.Prelude.{◌≡◌};
    ghost use Rattle.ob_object_draw.specs.DrawHistoryFaults.{of_module};

    ghost from_gives = { λ e f. f ≡ of_module e };

    fn from(fault: TextFault) -> DrawHistoryFault {
        DrawHistoryFault::Search(SearchFault::from(fault))
    }
}

impl From<PictureFault> for DrawHistoryFault {
    ghost use Rattle.std.specs.Prelude.{◌≡◌};
    ghost use Rattle.ob_object_draw.specs.DrawHistoryFaults.{of_picture};

    ghost from_gives = { λ e f. f ≡ of_picture e };

    fn from(fault: PictureFault) -> DrawHistoryFault {
        match fault {
            PictureFault::NoMemory => DrawHistoryFault::Search(SearchFault::NoMemory),
            other => DrawHistoryFault::Calls(other),
        }
    }
}

impl From<NoMemory> for DrawHistoryFault {
    ghost use Rattle.std.specs.Prelude.{◌≡◌};
    ghost use Rattle.ob_object_draw.specs.DrawHistoryFaults.{no_memory};

    ghost from_gives = { λ _ f. f ≡ no_memory };

    fn from(_: NoMemory) -> DrawHistoryFault {
        DrawHistoryFault::Search(SearchFault::NoMemory)
    }
}

impl From<AllocError> for DrawHistoryFault {
    ghost use Rattle.std.specs.Prelude.{◌≡◌};
    ghost use Rattle.ob_object_draw.specs.DrawHistoryFaults.{no_memory};

    ghost from_gives = { λ _ f. f ≡ no_memory };

    fn from(_: AllocError) -> DrawHistoryFault {
        DrawHistoryFault::Search(SearchFault::NoMemory)
    }
}

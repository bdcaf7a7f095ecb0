//! Why there is nothing to print.

use ob_desk_floor::CloseFault;
use ob_interface::NoMemory;
use ob_object_perform::PerformFault;
use std::alloc::AllocError;
use wf_object::CellFault;

/// Why there is nothing to print.
#[derive(Clone, Copy)]
pub enum Trouble {
    Own,
    Again,
    Endless,
    Texts,
    Desk,
}

impl Trouble {
    /// What is told of it.
    pub fn words(self) -> &'static str {
        match self {
            Trouble::Own => "the run's own want of memory",
            Trouble::Again => "a call was refused memory twice",
            Trouble::Endless => "not all calls were answered",
            Trouble::Texts => "the texts are refused",
            Trouble::Desk => "the desk gives no machine",
        }
    }

    /// The status that the program ends with: 4 where the run itself got no memory, 5 where the machine or the desk is at fault.
    pub fn status(self) -> u8 {
        match self {
            Trouble::Own => 4,
            _ => 5,
        }
    }
}

impl From<AllocError> for Trouble {
    fn from(_: AllocError) -> Trouble {
        Trouble::Own
    }
}

impl From<NoMemory> for Trouble {
    fn from(_: NoMemory) -> Trouble {
        Trouble::Own
    }
}

impl From<CellFault> for Trouble {
    fn from(fault: CellFault) -> Trouble {
        match fault {
            CellFault::NoMemory => Trouble::Own,
            CellFault::Processes => Trouble::Texts,
        }
    }
}

impl From<PerformFault> for Trouble {
    fn from(fault: PerformFault) -> Trouble {
        match fault {
            PerformFault::NoMemory => Trouble::Own,
            _ => Trouble::Texts,
        }
    }
}

impl From<CloseFault> for Trouble {
    fn from(_: CloseFault) -> Trouble {
        Trouble::Desk
    }
}

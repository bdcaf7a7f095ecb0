//! How many processes may share an object.

ghost use Rattle.std.specs.Prelude.{◌≡◌};
ghost use Rattle.ob_interface.specs.Processes.{most_processes};

/// The most processes of an object.
pub const MOST_PROCESSES: usize = 16;

/// The code's number of the most processes is that of the definitions.
pub fn most_processes()
    ensures { MOST_PROCESSES ≡ most_processes }
{}

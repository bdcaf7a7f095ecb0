//! The texts of a run.

use ob_object_compile::Asked;

/// What a run is made of: which object is asked for, the scripts of its calls, and the schedule, which says who steps. Where nothing
/// is said of steps, as for workers, the schedule is empty.
#[derive(Clone, Copy)]
pub struct Texts<'a> {
    pub asked: Asked<'a>,
    pub scripts: &'a [u8],
    pub schedule: &'a [u8],
}

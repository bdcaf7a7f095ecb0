//! Laws of work on a tree. What a function here ensures is proved; it does nothing.

ghost use Rattle.ob_tree_law.specs.Height.{HeightBounds};
ghost use Rattle.ob_tree_law.specs.LikeCode.{TreeIsCorrect, TreeIsLikeCode, WorkKeepsWithin};
ghost use Rattle.ob_code_scheme.specs.Correct.{CodeIsCorrect};

/// After every number of steps the work on a program's tree shows what the program's code shows after as many instructions, whatever the
/// length of the code.
pub fn tree_is_like_code()
    ensures { TreeIsLikeCode }
{}

/// The work list never holds more tasks than its reserve.
pub fn work_keeps_within()
    ensures { WorkKeepsWithin }
{}

/// Where code is correct, the work on the tree of each well-formed program does what its procedures mean.
pub fn tree_is_correct()
    ensures { CodeIsCorrect → TreeIsCorrect }
{}

/// The reserves grow with the height of the tree alone.
pub fn height_bounds()
    ensures { HeightBounds }
{}

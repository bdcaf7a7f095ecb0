//! Laws of the engine over a program's tree. What a function here ensures is proved; it does nothing.

ghost use Rattle.ob_tree_law.specs.TreeLaw.{BodiesShowTheSame, TreeBodiesEnd, TreeIsLawful, TreePartsAreLawful, TreeScriptsEnd};
ghost use Rattle.ob_tree_law.specs.LikeCode.{TreeIsCorrect};

/// The tree of each well-formed program does what its procedures mean, in both directions, and ends in a stated number of steps.
pub fn tree_is_correct()
    ensures { TreeIsCorrect }
{}

/// After every number of steps a body answers what the body over the code answers, with the same block and the same words of results.
pub fn bodies_show_the_same()
    ensures { BodiesShowTheSame }
{}

/// The engine over the tree of each well-formed program is lawful, with every budget, and its effect is that of the engine over its code.
pub fn tree_is_lawful()
    ensures program { TreeIsLawful }
    ensures parts { TreePartsAreLawful }
{}

/// A body is over after as many steps as the code would have instructions, for each turn of the budget and one time more.
pub fn tree_bodies_end()
    ensures bodies { TreeBodiesEnd }
    ensures scripts { TreeScriptsEnd }
{}

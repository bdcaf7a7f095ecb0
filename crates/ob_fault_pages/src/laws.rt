//! What ties the pages to the command line. What a function here ensures is proved; it does nothing.

ghost use Rattle.std.specs.Prelude.{◌≡◌, ℕ, List, is_some};
ghost use Rattle.ob_command.specs.CommandLine.{names_fault};
ghost use Rattle.ob_fault_pages.specs.Pages.{page_of};

/// The words that the command line takes for names of faults are those that have a page.
pub fn faults_have_pages()
    ensures { (word : List ℕ) → names_fault word ≡ is_some (page_of word) }
{}

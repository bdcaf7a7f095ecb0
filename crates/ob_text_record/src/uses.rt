//! What a process uses at a label.

ghost use Rattle.std.specs.Prelude.{◌≡◌};
ghost use Rattle.ob_text_record.specs.Uses.{uses_block, uses_list, uses_place, uses_process, uses_replies, uses_round, uses_save, uses_status, uses_word};

use wf_table::Label;

/// The number of the round.
pub(crate) fn uses_round(label: Label) -> bool
    ensures { result ≡ uses_round label }
{
    !matches!(
        label,
        Label::Next | Label::Post | Label::Flip | Label::Read | Label::Take | Label::Give
    )
}

/// The block that is read.
pub(crate) fn uses_block(label: Label) -> bool
    ensures { result ≡ uses_block label }
{
    matches!(label, Label::Load | Label::Store | Label::Take)
}

/// The word that is copied.
pub(crate) fn uses_word(label: Label) -> bool
    ensures { result ≡ uses_word label }
{
    matches!(label, Label::Store)
}

/// The place in a loop over words.
pub(crate) fn uses_place(label: Label) -> bool
    ensures { result ≡ uses_place label }
{
    matches!(
        label,
        Label::Post
            | Label::Load
            | Label::Store
            | Label::Fetch
            | Label::Save
            | Label::Undo
            | Label::Keep
            | Label::Take
    )
}

/// The process that is looked at or served.
pub(crate) fn uses_process(label: Label) -> bool
    ensures { result ≡ uses_process label }
{
    matches!(
        label,
        Label::Seen
            | Label::Fetch
            | Label::Check2
            | Label::Save
            | Label::Enter
            | Label::Body
            | Label::Undo
            | Label::Keep
    )
}

/// The status of the body that has ended.
pub(crate) fn uses_status(label: Label) -> bool
    ensures { result ≡ uses_status label }
{
    matches!(label, Label::Undo | Label::Keep)
}

/// The words of a call.
pub(crate) fn uses_list(label: Label) -> bool
    ensures { result ≡ uses_list label }
{
    matches!(
        label,
        Label::Post | Label::Fetch | Label::Check2 | Label::Save | Label::Enter
    )
}

/// The variables before the body.
pub(crate) fn uses_save(label: Label) -> bool
    ensures { result ≡ uses_save label }
{
    matches!(
        label,
        Label::Save | Label::Enter | Label::Body | Label::Undo
    )
}

/// The words of the own reply.
pub(crate) fn uses_replies(label: Label) -> bool
    ensures { result ≡ uses_replies label }
{
    matches!(label, Label::Take | Label::Give)
}

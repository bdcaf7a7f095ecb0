//! Names of labels.

ghost use Rattle.std.specs.Prelude.{◌≡◌, ◌≢◌, IfSome, IfNone};
ghost use Rattle.wf_table.specs.declared.process.Label.{Label};
ghost use Rattle.ob_text_words.specs.LabelNames.{label_name};

use wf_table::Label;

/// The label of a name.
pub fn label_named(name: &[u8]) -> Option<Label>
    ensures is { IfSome result (λ label. label_name label ≡ name.now) }
    ensures none { IfNone result ((label : Label) → label_name label ≢ name.now) }
{
    match name {
        b"NEXT" => Some(Label::Next),
        b"POST" => Some(Label::Post),
        b"FLIP" => Some(Label::Flip),
        b"TRY" => Some(Label::Try),
        b"LINK" => Some(Label::Link),
        b"LOAD" => Some(Label::Load),
        b"STORE" => Some(Label::Store),
        b"CHECK1" => Some(Label::Check1),
        b"MINE" => Some(Label::Mine),
        b"SEEN" => Some(Label::Seen),
        b"FETCH" => Some(Label::Fetch),
        b"CHECK2" => Some(Label::Check2),
        b"SAVE" => Some(Label::Save),
        b"ENTER" => Some(Label::Enter),
        b"BODY" => Some(Label::Body),
        b"UNDO" => Some(Label::Undo),
        b"KEEP" => Some(Label::Keep),
        b"COMMIT" => Some(Label::Commit),
        b"READ" => Some(Label::Read),
        b"TAKE" => Some(Label::Take),
        b"GIVE" => Some(Label::Give),
        _ => None,
    }
}

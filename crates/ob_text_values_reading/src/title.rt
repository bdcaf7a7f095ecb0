//! The first line of a record, which tells its version.

ghost use Rattle.std.specs.Prelude.{◌≡◌, ◌∷◌, [], map};
ghost use Rattle.ob_text_words.specs.Finding.{Finds};
ghost use Rattle.ob_text_values_reading.specs.RecordTexts.{IsTitle};
ghost use Rattle.ob_text_values_reading.specs.Versions.{version_word};

/// The version of a record: the first one has no budget, and the third one has the values that its object began with.
#[derive(Clone, Copy)]
pub enum Version {
    First,
    Second,
    Third,
}

/// The version that a title tells: `obl0 record 1`, `obl0 record 2` or `obl0 record 3`.
pub fn read_title(words: &[&[u8]]) -> Option<Version>
    ensures { Finds (λ version. IsTitle (version_word version) (map (λ w. w.now) words.now)) result }
{
    let Some((name, behind)) = words.split_first() else {
        return None;
    };
    let Some((kind, rest)) = behind.split_first() else {
        return None;
    };
    if *name != b"obl0".as_slice() {
        return None;
    }
    if *kind != b"record".as_slice() {
        return None;
    }
    read_version(rest)
}

/// The version that the only word is: `1`, `2` or `3`.
fn read_version(words: &[&[u8]]) -> Option<Version>
    ensures { Finds (λ version. map (λ w. w.now) words.now ≡ version_word version ∷ []) result }
{
    let [word] = words else {
        return None;
    };
    match *word {
        b"1" => Some(Version::First),
        b"2" => Some(Version::Second),
        b"3" => Some(Version::Third),
        _ => None,
    }
}

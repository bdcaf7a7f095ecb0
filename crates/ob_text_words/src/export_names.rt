//! Exports by their names.

ghost use Rattle.std.specs.Prelude.{◌≡◌, map, option_map};
ghost use Rattle.ob_interface.specs.View.{signature_of};
ghost use Rattle.ob_text_words.specs.ExportNames.{export_named};

use ob_interface::export::Export;

/// The export of a name, with its number.
#[inline]
pub fn export_named<'a>(exports: &'a [Export], name: &[u8]) -> Option<(usize, &'a Export)>
    ensures { option_map (λ e. (e.0, signature_of e.1.now)) result ≡ export_named (map signature_of exports.now) name.now }
{
    exports
        .iter()
        .enumerate()
        .find(|(_, export)| export.name.as_bytes() == name)
}

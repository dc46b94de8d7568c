//! Texts under names.
ghost use Rattle.std.specs.Prelude.{◌≡◌, option_map};
ghost use Rattle.site_records.specs.Texts.{text_named};

use plain_data::Text;

/// Returns the first text of that name, as of an option or a template (get_option).
pub fn text_named<'t>(texts: &'t [(Text, Text)], name: &str) -> Option<&'t str>
    ensures { option_map (λ text. text.now) result ≡ text_named name.now texts.now }
{
    let (_, text) = texts.iter().find(|(other, _)| other.as_str() == name)?;
    Some(text.as_str())
}

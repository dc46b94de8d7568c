//! Texts under names, in ascending order of the names, as a site keeps its options.
ghost use Rattle.std.specs.Prelude.{◌≡◌, option_map};
ghost use Rattle.site_records.specs.Texts.{text_named};
ghost use Rattle.site_records.specs.Sorted.{AreSorted};

use plain_data::Text;

/// Returns the text of that name, as of an option (get_option). It compares about as many names as
/// the number of texts has binary digits.
pub fn sorted_named<'t>(texts: &'t [(Text, Text)], name: &str) -> Option<&'t str>
    requires { AreSorted texts.now }
    ensures { option_map (λ text. text.now) result ≡ text_named name.now texts.now }
{
    match texts.binary_search_by(|(other, _)| other.as_str().cmp(name)) {
        Ok(place) => Some(texts[place].1.as_str()),
        Err(_) => None,
    }
}

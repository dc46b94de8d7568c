//! Which template a page is printed by.
ghost use Rattle.std.specs.Prelude.{◌≡◌, map, bytes_eq};
ghost use Rattle.std.specs.List.{list_any};
ghost use Rattle.template_parts.specs.Choice.{candidates, template_choice};

use plain_data::Text;
use site_records::FoundKind;

/// Chooses the template for what was found: the first of those for its kind that is stored, or
/// `index` if none is (Theme Handbook, Template Hierarchy). A front that shows a page asks for
/// `front-page`, `page` and `singular`, one that lists posts for `front-page` and `home`, or for
/// `home` alone while the option `show_on_front` is `page`; a post asks for `single` and
/// `singular`, a page for `page` and `singular`, a month for `date` and `archive`, and what isn't
/// found for `404`.
pub fn choose(kind: FoundKind, stored: &[Text]) -> &'static str
    ensures { result.now ≡ template_choice kind stored.now }
{
    for name in candidates(kind) {
        if is_stored(name, stored) {
            return name;
        }
    }
    "index"
}

fn is_stored(name: &str, stored: &[Text]) -> bool
    ensures { result ≡ list_any (bytes_eq name.now) stored.now }
{
    stored.iter().any(|other| name == other.as_str())
}

fn candidates(kind: FoundKind) -> &'static [&'static str]
    ensures { map (λ name. name.now) result.now ≡ candidates kind }
{
    match kind {
        FoundKind::Front => &["front-page", "home"],
        FoundKind::FrontPage => &["front-page", "page", "singular"],
        FoundKind::Home => &["home"],
        FoundKind::Single => &["single", "singular"],
        FoundKind::Page => &["page", "singular"],
        FoundKind::Month => &["date", "archive"],
        FoundKind::NotFound => &["404"],
    }
}

//! Text made safe for its place in a page.
#![tactic(auto)]

ghost use Rattle.std.specs.Prelude.{◌≡◌, ◌++◌, IsTrue, IfOk, OnOk, codes, string_bytes};
ghost use Rattle.std.specs.Char.{encode_utf8};
ghost use Rattle.page_escapes.specs.Escapes.{ends_escaped, html_escaped};

use memchr::{memchr, memchr2, memchr3, memmem};
use plain_data::Text;
use std::alloc::{AllocError, Global};

/// Writes each `]]>` of a text as `]]&gt;` (Code Reference, the_content). A text without one is
/// returned and not copied.
pub fn escape_ends(alloc: Global, text: Text) -> Result<Text, AllocError>
    ensures { IfOk result (λ escaped. escaped ≡ ends_escaped text) }
{
    if has_no_end(text.as_str()) {
        return Ok(text);
    }
    let escaped = text.as_str().replace(alloc, "]]>", "]]&gt;")?;
    Ok(Text::new(escaped))
}

/// Returns whether a text has no `]]>`, so that [`escape_ends`] leaves it as it is.
pub fn has_no_end(text: &str) -> bool
    ensures { IsTrue result → ends_escaped text.now ≡ text.now }
{
    // Most texts have no bracket, and one byte is found faster than three.
    let bytes = text.as_bytes();
    memchr(b']', bytes).is_none() || memmem::find(bytes, b"]]>").is_none()
}

/// Writes `&`, `<`, `>`, `"` and `'` of a text as entities. An entity that the text has is escaped
/// too (Code Reference, esc_html).
pub fn escape_html(alloc: Global, text: &str) -> Result<Text, AllocError>
    ensures { IfOk result (λ escaped. escaped ≡ html_escaped text.now) }
{
    if has_no_mark(text) {
        return Text::copied(alloc, text);
    }
    let mut escaped = String::with_capacity(alloc, text.len())?;
    for character in text.chars() {
        push_escaped(&mut escaped, character)?;
    }
    Ok(Text::new(escaped))
}

/// Escapes an owned text as [`escape_html`] does. One without any of these characters is returned
/// and not copied.
pub fn into_escaped_html(alloc: Global, text: Text) -> Result<Text, AllocError>
    ensures { IfOk result (λ escaped. escaped ≡ html_escaped text) }
{
    if has_no_mark(text.as_str()) {
        return Ok(text);
    }
    escape_html(alloc, text.as_str())
}

/// Returns whether no character of a text has an entity, so that [`escape_html`] leaves it as it
/// is.
pub fn has_no_mark(text: &str) -> bool
    ensures { IsTrue result → html_escaped text.now ≡ text.now }
{
    let bytes = text.as_bytes();
    memchr3(b'&', b'<', b'>', bytes).is_none() && memchr2(b'"', b'\'', bytes).is_none()
}

/// Appends a character to a text, as its entity if it has one.
fn push_escaped(text: &mut String, character: char) -> Result<(), AllocError>
    ensures { OnOk result (string_bytes text.new ≡ string_bytes text.old
        ++ html_escaped (encode_utf8 character)) }
{
    match character {
        '&' => text.push_str("&amp;"),
        '<' => text.push_str("&lt;"),
        '>' => text.push_str("&gt;"),
        '"' => text.push_str("&quot;"),
        '\'' => text.push_str("&#039;"),
        _ => text.push(character),
    }
}

/// States what some texts become. The call itself does nothing: it carries these facts.
pub fn worked_escapes()
    // Only a `>` right after `]]` is escaped; the byte after that one doesn't come after `]]` any
    // more.
    ensures end { ends_escaped (codes "]]>") ≡ codes "]]&gt;" }
    ensures end_after_a_bracket { ends_escaped (codes "]]]>>") ≡ codes "]]]&gt;>" }
    ensures one_bracket { ends_escaped (codes "]>") ≡ codes "]>" }
    ensures two_ends { ends_escaped (codes "a]]>b]]>") ≡ codes "a]]&gt;b]]&gt;" }

    ensures html { html_escaped (codes "<a href=\"x\">&amp;'</a>")
        ≡ codes "&lt;a href=&quot;x&quot;&gt;&amp;amp;&#039;&lt;/a&gt;" }
{}

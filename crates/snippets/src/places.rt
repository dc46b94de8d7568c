//! Where in a page's markup the text of a template ends: whether a value would come between tags,
//! within quotes, or where escaping doesn't make it safe.
ghost use Rattle.std.specs.Prelude.{◌≡◌, option_map, unwrap_or, codes};
ghost use Rattle.snippets.specs.Places.{after_angle, next_place, after_equals, after_tag, element_of};
ghost use Rattle.snippets.specs.Places.{left_after, raw_after};
ghost use Rattle.snippets.specs.Places.{after_declared, after_slash, in_ending};
ghost use Rattle.snippets.specs.Places.{end_of, in_attribute, in_bare, in_comment, in_name, in_quotes};
ghost use Rattle.snippets.specs.Places.{in_raw, in_tag, is_blank, is_gap, is_quote, is_whole, name_after};
ghost use Rattle.snippets.specs.Places.{place_after, place_now, takes_values, word_after};

/// An element, by what its text is.
#[derive(Clone, Copy)]
pub(crate) enum Element {
    /// `script`: a program.
    Script,
    /// `style`: rules of style.
    Style,
    /// Any other: text and tags.
    Other,
}

/// Where in a page's markup a text ends.
#[derive(Clone, Copy)]
pub(crate) enum Place<'w> {
    /// Between tags.
    Between,
    /// After a `<`.
    Opened,
    /// After a `</`.
    EndOpened,
    /// After a `<!`, with 0 or 1 `-` after it.
    Declared(u8),
    /// In a doctype or a bogus comment, which end at the first `>`.
    Ending,
    /// In a comment, with 0, 1 or 2 `-` just before.
    Comment(u8),
    /// In a tag's name: what is left of `script` and of `style`, if it has agreed with them so far.
    Name(Option<&'w [u8]>, Option<&'w [u8]>),
    /// In a tag, before the name of an attribute.
    Inside(Element),
    /// In the name of an attribute, or after it.
    Attribute(Element),
    /// After the `=` of an attribute.
    Equals(Element),
    /// In a value without quotes.
    Bare(Element),
    /// In a value within two of this quote.
    Quoted(u8, Element),
    /// In the text of a script or a style: what is left of the name of its end tag, and of `<!--`.
    Raw(Element, &'w [u8], &'w [u8]),
    /// In the text of a script after a `<!--`, whose end isn't looked for.
    Nowhere,
}

/// What makes the end of a script's text unsure: a `<script` after it begins another one.
const ESCAPE: &[u8] = b"<!--";

/// Returns whether a byte is white space.
fn is_blank(byte: u8) -> bool
    ensures { result ≡ is_blank byte }
{
    byte == b' ' || byte == b'\t' || byte == b'\n' || byte == 12 || byte == b'\r'
}

/// Returns whether a byte ends a name in a tag.
fn is_gap(byte: u8) -> bool
    ensures { result ≡ is_gap byte }
{
    is_blank(byte) || byte == b'/'
}

/// Returns what is left of a word after a byte, or `None` if the byte isn't its next one.
fn word_after(word: &[u8], byte: u8) -> Option<&[u8]>
    ensures { option_map (λ left. left.now) result ≡ word_after word.now byte }
{
    match word {
        [first, rest @ ..] if byte.to_ascii_lowercase() == *first => Some(rest),
        _ => None,
    }
}

/// Returns what is left of a word that a name has agreed with so far.
fn name_after(word: Option<&[u8]>, byte: u8) -> Option<&[u8]>
    ensures { option_map (λ left. left.now) result
        ≡ name_after (option_map (λ left. left.now) word.entry) byte }
{
    match word {
        Some(left) => word_after(left, byte),
        None => None,
    }
}

/// Returns whether nothing is left of a word that a name has agreed with.
fn is_whole(word: Option<&[u8]>) -> bool
    ensures { result ≡ is_whole (option_map (λ left. left.now) word.entry) }
{
    match word {
        Some(left) => left.is_empty(),
        None => false,
    }
}

/// Returns the element of a tag's name.
fn element_of(script: Option<&[u8]>, style: Option<&[u8]>) -> Element
    ensures { result ≡ element_of (option_map (λ left. left.now) script.entry)
        (option_map (λ left. left.now) style.entry) }
{
    if is_whole(script) {
        Element::Script
    } else if is_whole(style) {
        Element::Style
    } else {
        Element::Other
    }
}

/// Returns the beginning of the end tag of an element whose text is no markup.
fn end_of<'w>(element: Element) -> &'w [u8]
    ensures { result.now ≡ end_of element }
{
    match element {
        Element::Script => b"</script",
        Element::Style => b"</style",
        Element::Other => b"",
    }
}

/// Returns the place after the `>` of an element's tag.
fn after_tag<'w>(element: Element) -> Place<'w>
    ensures { place_now result ≡ after_tag element }
{
    match element {
        Element::Script => Place::Raw(Element::Script, end_of(Element::Script), ESCAPE),
        Element::Style => Place::Raw(Element::Style, end_of(Element::Style), ESCAPE),
        Element::Other => Place::Between,
    }
}

/// Returns the place after a `<` and this byte.
fn after_angle<'w>(byte: u8) -> Place<'w>
    ensures { place_now result ≡ after_angle byte }
{
    if byte.is_ascii_alphabetic() {
        Place::Name(word_after(b"script", byte), word_after(b"style", byte))
    } else if byte == b'/' {
        Place::EndOpened
    } else if byte == b'!' {
        Place::Declared(0)
    } else if byte == b'?' {
        Place::Ending
    } else if byte == b'<' {
        Place::Opened
    } else {
        Place::Between
    }
}

/// Returns the place after a byte in a doctype or a bogus comment.
fn in_ending<'w>(byte: u8) -> Place<'w>
    ensures { place_now result ≡ in_ending byte }
{
    if byte == b'>' {
        Place::Between
    } else {
        Place::Ending
    }
}

/// Returns the place after a `</` and this byte.
fn after_slash<'w>(byte: u8) -> Place<'w>
    ensures { place_now result ≡ after_slash byte }
{
    if byte.is_ascii_alphabetic() {
        Place::Name(None, None)
    } else {
        in_ending(byte)
    }
}

/// Returns the place after a `<!`, at most one `-`, and this byte.
fn after_declared<'w>(dashes: u8, byte: u8) -> Place<'w>
    ensures { place_now result ≡ after_declared dashes byte }
{
    if byte != b'-' {
        in_ending(byte)
    } else if dashes == 0 {
        Place::Declared(1)
    } else {
        Place::Comment(2)
    }
}

/// Returns the place after a byte in a comment.
fn in_comment<'w>(dashes: u8, byte: u8) -> Place<'w>
    ensures { place_now result ≡ in_comment dashes byte }
{
    if byte == b'-' {
        Place::Comment(if dashes == 0 { 1 } else { 2 })
    } else if byte == b'>' && dashes == 2 {
        Place::Between
    } else {
        Place::Comment(0)
    }
}

/// Returns the place after a byte in a tag's name.
fn in_name<'w>(script: Option<&'w [u8]>, style: Option<&'w [u8]>, byte: u8) -> Place<'w>
    ensures { place_now result ≡ in_name (option_map (λ left. left.now) script.entry)
        (option_map (λ left. left.now) style.entry) byte }
{
    if byte == b'>' {
        after_tag(element_of(script, style))
    } else if is_gap(byte) {
        Place::Inside(element_of(script, style))
    } else {
        Place::Name(name_after(script, byte), name_after(style, byte))
    }
}

/// Returns the place after a byte in a tag, before the name of an attribute.
fn in_tag<'w>(element: Element, byte: u8) -> Place<'w>
    ensures { place_now result ≡ in_tag element byte }
{
    if byte == b'>' {
        after_tag(element)
    } else if is_gap(byte) {
        Place::Inside(element)
    } else {
        Place::Attribute(element)
    }
}

/// Returns the place after a byte in the name of an attribute, or after it.
fn in_attribute<'w>(element: Element, byte: u8) -> Place<'w>
    ensures { place_now result ≡ in_attribute element byte }
{
    if byte == b'>' {
        after_tag(element)
    } else if byte == b'=' {
        Place::Equals(element)
    } else if byte == b'/' {
        Place::Inside(element)
    } else {
        Place::Attribute(element)
    }
}

/// Returns the place after a byte after the `=` of an attribute.
fn after_equals<'w>(element: Element, byte: u8) -> Place<'w>
    ensures { place_now result ≡ after_equals element byte }
{
    if byte == b'>' {
        after_tag(element)
    } else if is_blank(byte) {
        Place::Equals(element)
    } else if byte == b'"' || byte == b'\'' {
        Place::Quoted(byte, element)
    } else {
        Place::Bare(element)
    }
}

/// Returns the place after a byte in a value without quotes.
fn in_bare<'w>(element: Element, byte: u8) -> Place<'w>
    ensures { place_now result ≡ in_bare element byte }
{
    if byte == b'>' {
        after_tag(element)
    } else if is_blank(byte) {
        Place::Inside(element)
    } else {
        Place::Bare(element)
    }
}

/// Returns the place after a byte in a value within quotes.
fn in_quotes<'w>(quote: u8, element: Element, byte: u8) -> Place<'w>
    ensures { place_now result ≡ in_quotes quote element byte }
{
    if byte == quote {
        Place::Inside(element)
    } else {
        Place::Quoted(quote, element)
    }
}

/// Returns what is left of a word after a byte of a text, where it may begin at any time.
fn left_after<'w>(word: &'w [u8], left: &'w [u8], byte: u8) -> &'w [u8]
    ensures { result.now ≡ left_after word.entry.now left.entry.now byte }
{
    if let Some(rest) = word_after(left, byte) {
        return rest;
    }
    match word_after(word, byte) {
        Some(rest) => rest,
        None => word,
    }
}

/// Returns the place in the text of a script or a style with this left of its end and of `<!--`.
fn raw_after<'w>(element: Element, left: &'w [u8], escape: &'w [u8]) -> Place<'w>
    ensures { place_now result ≡ raw_after element left.entry.now escape.entry.now }
{
    match element {
        Element::Script if escape.is_empty() => Place::Nowhere,
        _ => Place::Raw(element, left, escape),
    }
}

/// Returns the place after a byte in the text of a script or a style.
fn in_raw<'w>(element: Element, left: &'w [u8], escape: &'w [u8], byte: u8) -> Place<'w>
    ensures { place_now result ≡ in_raw element left.entry.now escape.entry.now byte }
{
    if left.is_empty() && byte == b'>' {
        Place::Between
    } else if left.is_empty() && is_gap(byte) {
        Place::Inside(Element::Other)
    } else {
        let left = left_after(end_of(element), left, byte);
        raw_after(element, left, left_after(ESCAPE, escape, byte))
    }
}

/// Returns the place after one more byte.
fn next_place<'w>(place: Place<'w>, byte: u8) -> Place<'w>
    ensures { place_now result ≡ next_place (place_now place.entry) byte }
{
    match place {
        Place::Between => {
            if byte == b'<' {
                Place::Opened
            } else {
                Place::Between
            }
        }
        Place::Opened => after_angle(byte),
        Place::EndOpened => after_slash(byte),
        Place::Declared(dashes) => after_declared(dashes, byte),
        Place::Ending => in_ending(byte),
        Place::Comment(dashes) => in_comment(dashes, byte),
        Place::Name(script, style) => in_name(script, style, byte),
        Place::Inside(element) => in_tag(element, byte),
        Place::Attribute(element) => in_attribute(element, byte),
        Place::Equals(element) => after_equals(element, byte),
        Place::Bare(element) => in_bare(element, byte),
        Place::Quoted(quote, element) => in_quotes(quote, element, byte),
        Place::Raw(element, left, escape) => in_raw(element, left, escape, byte),
        Place::Nowhere => Place::Nowhere,
    }
}

/// Returns the place after a text.
pub(crate) fn place_after<'w>(place: Place<'w>, text: &str) -> Place<'w>
    ensures { place_now result ≡ place_after (place_now place.entry) text.now }
{
    let mut place = place;
    for byte in text.as_bytes() {
        place = next_place(place, *byte);
    }
    place
}

/// Returns whether escaping makes a value safe at a place: between tags, and within quotes.
pub(crate) fn takes_values(place: Place<'_>) -> bool
    ensures { result ≡ takes_values (place_now place.entry) }
{
    match place {
        Place::Between => true,
        Place::Quoted(quote, _) => quote == b'"' || quote == b'\'',
        _ => false,
    }
}

//! The items of an attribute text, found in its bytes. They are the items of its characters: each
//! character that a form asks for is ASCII, and no other character has a byte that is.
ghost use Rattle.std.specs.Prelude.{◌≡◌, ℕ, ◌<◌, ◌≤◌, List, length, take};
ghost use Rattle.std.specs.Prelude.{drop, nat_lt, Option, Some, option_map, IfSome};
ghost use Rattle.std.specs.List.{prefix_len};
ghost use Rattle.shortcode_atts.specs.Found.{pair_now, item_now, belongs, first_of};
ghost use Rattle.plain_data.specs.Steps.{only_if};
ghost use Rattle.plain_data.specs.NameByte.{is_name_byte};
ghost use Rattle.shortcode_atts.specs.Items.{is_white, is_bare_char, skip_white, after_char};
ghost use Rattle.shortcode_atts.specs.Items.{is_ended, run_at};
ghost use Rattle.shortcode_atts.specs.Items.{quoted_at, spelled_at, value_at, named_at, single_at};
ghost use Rattle.shortcode_atts.specs.Items.{item_at};

use plain_data::is_name_byte;

/// How a value is written.
#[derive(Clone, Copy)]
pub(crate) enum Form {
    /// Between two of this quote.
    Quoted(u8),
    /// With no white space and no quote.
    Bare,
    /// With no white space.
    Word,
}

// The forms of a value after a name, and of a value alone, each in the order in which they are
// tried.
const NAMED_FORMS: [Form; 3] = [Form::Quoted(b'"'), Form::Quoted(b'\''), Form::Bare];

const SINGLE_FORMS: [Form; 3] = [Form::Quoted(b'"'), Form::Quoted(b'\''), Form::Word];

/// Bytes of which a run is taken from the front of a text.
#[derive(Clone, Copy)]
pub(crate) enum ByteRun {
    /// White space.
    White,
    /// Bytes of a name.
    Name,
    /// Bytes of a value without quotes.
    Bare,
    /// All but white space.
    Word,
    /// All but this quote.
    Until(u8),
}

/// An item that was found at the front of a text, and what follows it.
#[derive(Clone, Copy)]
pub(crate) struct FoundItem<'t> {
    pub(crate) name: Option<&'t [u8]>,
    pub(crate) value: &'t [u8],
    pub(crate) rest: &'t [u8],
}

/// Returns whether a byte is white space: a tab, a line break of any kind, or a space.
fn is_white(byte: u8) -> bool
    ensures { result ≡ is_white byte }
{
    matches!(byte, b'\t'..=b'\r' | b' ')
}

/// Returns whether a byte may be in a value without quotes.
fn is_bare_char(byte: u8) -> bool
    ensures { result ≡ is_bare_char byte }
{
    !(is_white(byte) || byte == b'"' || byte == b'\'')
}

/// Returns whether a byte belongs to a run.
fn belongs(run: ByteRun, byte: u8) -> bool
    ensures { result ≡ belongs run byte }
{
    match run {
        ByteRun::White => is_white(byte),
        ByteRun::Name => is_name_byte(byte),
        ByteRun::Bare => is_bare_char(byte),
        ByteRun::Word => !is_white(byte),
        ByteRun::Until(quote) => byte != quote,
    }
}

/// Returns how many bytes at the front of a text belong to a run.
fn run_len(run: ByteRun, text: &[u8]) -> usize
    ensures value { result ≡ prefix_len (belongs run) text.now }
    ensures within { result ≤ length text.now }
{
    for (len, byte) in text.iter().enumerate() {
        if !belongs(run, *byte) {
            return len;
        }
    }
    text.len()
}

/// Returns what follows the white space at the front.
pub(crate) fn skip_white(text: &[u8]) -> &[u8]
    ensures value { result.now ≡ skip_white text.now }
    ensures within { length result.now ≤ length text.now }
{
    &text[run_len(ByteRun::White, text)..]
}

/// Returns what follows this byte at the front, or `None` if the text doesn't begin with it.
fn after_char(c: u8, text: &[u8]) -> Option<&[u8]>
    ensures value { option_map (λ x. x.now) result ≡ after_char c text.now }
    ensures shorter { IfSome result (λ rest. length rest.now < length text.now) }
{
    match text {
        [first, rest @ ..] if *first == c => Some(rest),
        _ => None,
    }
}

/// Returns whether the end or white space comes next.
fn is_ended(text: &[u8]) -> bool
    ensures { result ≡ is_ended text.now }
{
    match text {
        [] => true,
        [first, ..] => is_white(*first),
    }
}

/// Splits a text after `len` bytes; `None` if `len` is 0.
fn split(text: &[u8], len: usize) -> Option<(&[u8], &[u8])>
    requires { len ≤ length text.now }
    ensures value { option_map pair_now result
        ≡ only_if (nat_lt 0 len) (take len text.now, drop len text.now) }
    ensures shorter { IfSome result (λ x. length x.1.now < length text.now) }
{
    if len == 0 {
        return None;
    }
    Some((&text[..len], &text[len..]))
}

/// Returns what is between two quotes at the front, and what follows.
#[tactic(auto, unfolding(crate::specs::Items::quoted_at))]
fn quoted_at(quote: u8, text: &[u8]) -> Option<(&[u8], &[u8])>
    ensures value { option_map pair_now result ≡ quoted_at quote text.now }
    ensures shorter { IfSome result (λ x. length x.1.now < length text.now) }
{
    let body = after_char(quote, text)?;
    let len = run_len(ByteRun::Until(quote), body);
    let rest = after_char(quote, &body[len..])?;
    Some((&body[..len], rest))
}

/// Returns a value of the form at the front, and what follows.
#[tactic(auto, unfolding(crate::specs::Items::run_at))]
fn spelled_at(form: Form, text: &[u8]) -> Option<(&[u8], &[u8])>
    ensures value { option_map pair_now result ≡ spelled_at form text.now }
    ensures shorter { IfSome result (λ x. length x.1.now < length text.now) }
{
    match form {
        Form::Quoted(quote) => quoted_at(quote, text),
        Form::Bare => split(text, run_len(ByteRun::Bare, text)),
        Form::Word => split(text, run_len(ByteRun::Word, text)),
    }
}

/// Returns the same, if the end or white space comes after it.
#[tactic(auto, unfolding(crate::specs::Items::value_at))]
fn value_at(form: Form, text: &[u8]) -> Option<(&[u8], &[u8])>
    ensures value { option_map pair_now result ≡ value_at form text.now }
    ensures shorter { IfSome result (λ x. length x.1.now < length text.now) }
{
    let (value, rest) = spelled_at(form, text)?;
    if is_ended(rest) {
        Some((value, rest))
    } else {
        None
    }
}

/// Reads a value alone at the front.
#[tactic(auto, unfolding(crate::specs::Items::single_at))]
fn single_at(form: Form, text: &[u8]) -> Option<FoundItem<'_>>
    ensures value { option_map item_now result ≡ single_at form text.now }
    ensures shorter { IfSome result (λ it. length it.rest.now < length text.now) }
{
    let (value, rest) = value_at(form, text)?;
    Some(FoundItem {
        name: None,
        value,
        rest,
    })
}

/// Reads the value of this name at the front, in the first of the forms that fits.
fn first_valued<'t>(name: &'t [u8], forms: &[Form], text: &'t [u8]) -> Option<FoundItem<'t>>
    ensures value { option_map item_now result ≡ first_of (λ form. option_map
        (λ v. record { name = Some name.now; value = v.0; rest = v.1 }) (value_at form text.now))
        forms.now }
    ensures shorter { IfSome result (λ it. length it.rest.now < length text.now) }
{
    for form in forms {
        if let Some((value, rest)) = value_at(*form, text) {
            return Some(FoundItem {
                name: Some(name),
                value,
                rest,
            });
        }
    }
    None
}

/// Returns a name at the front, and what follows.
#[tactic(auto, unfolding(crate::specs::Items::run_at))]
fn name_at(text: &[u8]) -> Option<(&[u8], &[u8])>
    ensures value { option_map pair_now result ≡ run_at is_name_byte text.now }
    ensures shorter { IfSome result (λ x. length x.1.now < length text.now) }
{
    split(text, run_len(ByteRun::Name, text))
}

/// Reads `name = value` at the front, in the first of the forms that fits. The name is read once
/// for all forms.
fn first_named<'t>(forms: &[Form], text: &'t [u8]) -> Option<FoundItem<'t>>
    ensures value { option_map item_now result
        ≡ first_of (λ form. named_at form text.now) forms.now }
    ensures shorter { IfSome result (λ it. length it.rest.now < length text.now) }
{
    let (name, rest) = name_at(text)?;
    let rest = after_char(b'=', skip_white(rest))?;
    first_valued(name, forms, skip_white(rest))
}

/// Reads a value alone at the front, in the first of the forms that fits.
fn first_single<'t>(forms: &[Form], text: &'t [u8]) -> Option<FoundItem<'t>>
    ensures value { option_map item_now result
        ≡ first_of (λ form. single_at form text.now) forms.now }
    ensures shorter { IfSome result (λ it. length it.rest.now < length text.now) }
{
    for form in forms {
        if let Some(found) = single_at(*form, text) {
            return Some(found);
        }
    }
    None
}

/// Reads the item at the front of a text, in the first of the six forms that fits.
#[tactic(auto, unfolding(crate::specs::Items::item_at))]
pub(crate) fn item_at(text: &[u8]) -> Option<FoundItem<'_>>
    ensures value { option_map item_now result ≡ item_at text.now }
    ensures shorter { IfSome result (λ it. length it.rest.now < length text.now) }
{
    match first_named(&NAMED_FORMS, text) {
        Some(found) => Some(found),
        None => first_single(&SINGLE_FORMS, text),
    }
}

//! A line that asks for a page, read without its JSON tree.
ghost use Rattle.std.specs.Prelude.{◌≡◌, ◌∷◌, Some, IfOk, IfSome};
ghost use Rattle.json.specs.Reads.{token_of};
ghost use Rattle.json.specs.Token.{Token as SpecToken, key, string};
ghost use Rattle.site_commands.specs.Asked.{get};
ghost use Rattle.site_commands.specs.GetLine.{get_tokens};
ghost use Rattle.site_commands.specs.Worked.{line_command};

use json::{Reader, Scratch, Token};
use std::alloc::AllocError;

/// The most bytes that a line may have to be read in this way, so that the scratch stays small.
const MAX_LINE: usize = 16_384;

/// Reads the path of a `get` line that has the two members `cmd` and `path`, in this order and with
/// at most one space after the first colon: most pages are asked for by such lines. It makes no
/// tree, so it takes far less than `read_line` does. `None` says nothing of the line, which
/// `read_line` has to read. It fails only if memory runs out.
pub(crate) fn read_get_line<'t>(
    line: &'t [u8],
    scratch: &'t mut Scratch,
) -> Result<Option<&'t str>, AllocError>
    ensures { IfOk result
        (λ found. IfSome found (λ path. line_command line.now ≡ Some (get path.now))) }
{
    // No other line is read twice.
    let is_get = line.starts_with(b"{\"cmd\":\"get\"") || line.starts_with(b"{\"cmd\": \"get\"");
    if !is_get || line.len() > MAX_LINE {
        return Ok(None);
    }
    let Ok(text) = str::from_utf8(line) else {
        return Ok(None);
    };
    let mut reader = Reader::new(text, scratch)?;
    Ok(read_path(&mut reader))
}

/// Returns the path if the tokens that are left are those of such a line.
fn read_path<'t>(reader: &mut Reader<'t>) -> Option<&'t str>
    ensures { IfSome result (λ path. reader.old ≡ get_tokens path.now) }
{
    let Some(Token::BeginObject) = reader.next() else {
        return None;
    };
    let Some("get") = text_member(reader, "cmd") else {
        return None;
    };
    let Some(path) = text_member(reader, "path") else {
        return None;
    };
    let Some(Token::EndObject) = reader.next() else {
        return None;
    };
    match reader.next() {
        Some(_) => None,
        None => Some(path),
    }
}

/// Takes the tokens of a member, and returns its text if it has this key and is a text.
fn text_member<'t>(reader: &mut Reader<'t>, name: &str) -> Option<&'t str>
    ensures { IfSome result
        (λ text. reader.old ≡ key name.now ∷ string text.now ∷ reader.new) }
{
    let Some(Token::Key(found)) = reader.next() else {
        return None;
    };
    if found != name {
        return None;
    }
    match reader.next() {
        Some(Token::String(text)) => Some(text),
        _ => None,
    }
}

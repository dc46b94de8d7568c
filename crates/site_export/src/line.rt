//! Commands, written as JSON.
ghost use Rattle.std.specs.Prelude.{◌≡◌, ◌++◌, ◌∷◌, [], codes, string_bytes, map, IfOk, OnOk};
ghost use Rattle.std.specs.List.{AllByRecursion};
ghost use Rattle.json.specs.Token.{begin_object, end_object};
ghost use Rattle.json.specs.Reads.{token_of};
ghost use Rattle.json.specs.Print.{print, IsPrintable};
ghost use Rattle.site_export.specs.Lines.{with_text, with_number};

use json::{Token, Writer};
use std::alloc::{AllocError, Global};

/// Appends tokens to a line.
pub(crate) fn put(line: &mut Writer, tokens: &[Token<'_>]) -> Result<(), AllocError>
    requires { AllByRecursion IsPrintable (map token_of tokens.now) }
    ensures before { line.new.before ≡ line.old.before }
    ensures tokens { OnOk result (line.new.tokens ≡ line.old.tokens ++ map token_of tokens.now) }
{
    for token in tokens {
        line.token(*token)?;
    }
    Ok(())
}

/// Appends a member whose value is a text.
pub(crate) fn put_text(line: &mut Writer, name: &str, text: &str) -> Result<(), AllocError>
    ensures before { line.new.before ≡ line.old.before }
    ensures tokens { OnOk result (line.new.tokens ≡ line.old.tokens
        ++ with_text name.now text.now) }
{
    line.key(name)?;
    line.string(text)
}

/// Appends a member whose value is a number.
pub(crate) fn put_number(line: &mut Writer, name: &str, number: u32) -> Result<(), AllocError>
    ensures before { line.new.before ≡ line.old.before }
    ensures tokens { OnOk result (line.new.tokens ≡ line.old.tokens
        ++ with_number name.now number) }
{
    line.key(name)?;
    line.u64(u64::from(number))
}

/// Begins the line of a command, up to what the command is given.
pub(crate) fn begin_command(alloc: Global, name: &str) -> Result<Writer, AllocError>
    ensures before { IfOk result (λ line. line.before ≡ []) }
    ensures tokens { IfOk result (λ line. line.tokens ≡ begin_object
        ∷ with_text (codes "cmd") name.now) }
{
    let mut line = Writer::new(Vec::new(alloc));
    line.begin_object()?;
    put_text(&mut line, "cmd", name)?;
    Ok(line)
}

/// Ends the line of a command.
pub(crate) fn end_command(mut line: Writer) -> Result<String, AllocError>
    requires { line.before ≡ [] }
    ensures { IfOk result (λ text. string_bytes text ≡ print (line.tokens ++ end_object ∷ [])) }
{
    line.end_object()?;
    Ok(ended(line))
}

/// Returns the text of a line.
pub(crate) fn ended(line: Writer) -> String
    requires { line.before ≡ [] }
    ensures { string_bytes result ≡ print line.tokens }
{
    match String::from_utf8(line.into_inner()) {
        Ok(text) => text,
        Err(_) => unreachable!(),
    }
}

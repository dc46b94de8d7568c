//! The token that edits need.
ghost use Rattle.std.specs.Prelude.{◌≢◌, [], IfOk, string_bytes};

use std::alloc::Global;
use std::io::ErrorKind;
use std::{fs, io};

/// Reads the token in a file: its text without white space at both ends. A file without a token is
/// `InvalidData`, as is one that isn't UTF-8.
pub fn read_token(rt: &HostRuntime, path: &str) -> io::Result<String>
    ensures { IfOk result (λ token. string_bytes token ≢ []) }
{
    let text = fs::read_to_string(rt, path)?;
    let token = text.as_str().trim();
    if token.is_empty() {
        return Err(ErrorKind::InvalidData.into());
    }
    Ok(String::from_str(rt.alloc(), token)?)
}

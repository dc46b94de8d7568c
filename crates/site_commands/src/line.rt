//! A line's JSON tree.
ghost use Rattle.std.specs.Prelude.{◌≡◌, IfOk, option_map};
ghost use Rattle.serde_json.specs.View.{view};
ghost use Rattle.site_commands.specs.Tree.{tree_of};

use serde_json::Value;
use std::alloc::{AllocError, Global};

/// Reads the JSON tree of a line, given without its newline, or returns `None` if the line isn't a
/// JSON text in UTF-8 (RFC 8259). Values nest to 127, and if a key is repeated the last value
/// counts, as in `serde_json`. It fails only if memory runs out.
pub fn read_line(alloc: Global, line: &[u8]) -> Result<Option<Value>, AllocError>
    ensures { IfOk result (λ value. option_map view value ≡ tree_of line.now) }
{
    match Value::from_slice(alloc, line) {
        Ok(value) => Ok(Some(value)),
        Err(e) if e.is_memory() => Err(AllocError),
        Err(_) => Ok(None),
    }
}

//! The line that asks for a page.
ghost use Rattle.std.specs.Prelude.{◌≡◌, IfOk};
ghost use Rattle.site_http.specs.Pages.{page_line};

use json::Writer;
use std::alloc::{AllocError, Global};

/// Returns the command line that asks for the page of a path, without a newline.
pub(crate) fn page_line(alloc: Global, path: &str) -> Result<Vec<u8>, AllocError>
    ensures { IfOk result (λ line. line.items ≡ page_line path.now) }
{
    let mut line = Writer::new(Vec::new(alloc));
    line.begin_object()?;
    line.key("cmd")?;
    line.string("get")?;
    line.key("path")?;
    line.string(path)?;
    line.end_object()?;
    Ok(line.into_inner())
}

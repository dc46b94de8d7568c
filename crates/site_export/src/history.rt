//! All lines of a site.
ghost use Rattle.std.specs.Prelude.{◌≡◌, ◌++◌, string_bytes, map, filter, nat_lt, All, IfOk, IfErr};
ghost use Rattle.std.specs.Prelude.{OnOk};
ghost use Rattle.post_tables.specs.Rows.{IsReadFault};
ghost use Rattle.site_export.specs.Lines.{gone_lines, AppendsPosts, IsHistory, IsShort, FitsLines};

use crate::pairs::{push_active, push_options, push_templates};
use crate::posts::{push_gone, push_posts};
use post_tables::{Tables, TablesFault};
use std::alloc::Global;

/// How many posts are read at a time.
const STEP: u32 = 100;

/// Appends the lines that are there for the largest ID alone: if no post has it, it was a post's
/// that is deleted.
fn push_largest(
    alloc: Global,
    lines: &mut Vec<String>,
    tables: &mut Tables,
) -> Result<(), TablesFault>
    ensures lines { OnOk result (map string_bytes lines.new.items
        ≡ map string_bytes lines.old.items ++ gone_lines tables.old) }
    ensures same { tables.new ≡ tables.old }
    ensures fault { IfErr result (IsReadFault tables.old.step_limit) }
{
    let largest = tables.largest()?;
    if largest > 0 && tables.post(largest)?.is_none() {
        push_gone(alloc, lines, largest)?;
    }
    Ok(())
}

/// Appends the lines of all posts.
fn push_all_posts(
    alloc: Global,
    lines: &mut Vec<String>,
    tables: &mut Tables,
) -> Result<(), TablesFault>
    ensures lines { OnOk result (AppendsPosts (filter (λ p. nat_lt 0 p.id) tables.old.posts)
        (map string_bytes lines.old.items) (map string_bytes lines.new.items)) }
    ensures same { tables.new ≡ tables.old }
    ensures fault { IfErr result (IsReadFault tables.old.step_limit) }
{
    // No two posts have the same ID, so that none is left out after one that was read.
    tables.ids_occur_once();
    let mut last = 0;
    loop {
        let posts = tables.posts_after(last, STEP)?;
        match posts.as_slice().last() {
            Some(post) => last = post.id,
            None => return Ok(()),
        }
        push_posts(alloc, lines, posts.as_slice())?;
    }
}

/// Returns the command lines that are defined of the posts, options, templates, active plugins and
/// the largest ID given: they are meant for a site that has just begun, which then stores the same
/// (tested, not proved). Each is without its newline. An empty site has none.
///
/// Each line is within a site's limit of 1,048,576 bytes, if each text of the rows fits into a line
/// of its own, as it does if it came by such a line. It fails as `OutOfMemory` if memory runs out,
/// and as `Store` only if a limit is set on the steps of statements.
pub fn history_of(alloc: Global, tables: &mut Tables) -> Result<Vec<String>, TablesFault>
    ensures lines { IfOk result (λ lines. IsHistory tables.old (map string_bytes lines.items)) }
    ensures short { FitsLines tables.old
        → IfOk result (λ lines. All IsShort (map string_bytes lines.items)) }
    ensures same { tables.new ≡ tables.old }
    ensures fault { IfErr result (IsReadFault tables.old.step_limit) }
{
    let mut lines = Vec::new(alloc);
    push_largest(alloc, &mut lines, tables)?;
    push_all_posts(alloc, &mut lines, tables)?;
    push_options(alloc, &mut lines, tables.options()?.as_slice())?;
    push_templates(alloc, &mut lines, tables.templates()?.as_slice())?;
    push_active(alloc, &mut lines, tables.active()?.as_slice())?;
    Ok(lines)
}

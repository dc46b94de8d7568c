//! The options, as far as a site keeps them.
ghost use Rattle.std.specs.Prelude.{◌≡◌, IfOk};
ghost use Rattle.std.specs.FinMap.Entries.{put};
ghost use Rattle.post_tables.specs.Rows.{by_bytes};

use plain_data::{SharedList, Text};
use std::alloc::{AllocError, Global};
use std::cmp::Ordering;

/// The maximum number of options that are kept over an edit of one: all are copied for it, and of
/// more it takes less to read them again for the next page than to copy them at each of many edits.
const MOST_OPTIONS: usize = 10_000;

/// The maximum number of edits that copy the options between two pages. Without a page between them,
/// nothing reads what an edit copied, so later edits copy nothing.
const MOST_COPIES: u8 = 8;

/// Returns the options with one of them set, in the order of their names' bytes. The texts of the
/// others share their memory. It fails if memory runs out, for more than 10,000 options, and if they
/// were copied 8 times since a page last asked for them.
pub(crate) fn with_option(
    alloc: Global,
    options: &[(Text, Text)],
    copies: u8,
    name: &str,
    value: &str,
) -> Result<SharedList<(Text, Text)>, AllocError>
    ensures { IfOk result (λ texts. texts ≡ put by_bytes name.now value.now options.now) }
{
    if copies >= MOST_COPIES || options.len() > MOST_OPTIONS {
        return Err(AllocError);
    }
    let mut texts = Vec::with_capacity(alloc, options.len() + 1)?;
    let mut is_set = false;
    for (other, text) in options {
        if !is_set {
            match name.cmp(other.as_str()) {
                Ordering::Less => {
                    texts.push((shared(alloc, name)?, shared(alloc, value)?))?;
                    is_set = true;
                }
                Ordering::Equal => {
                    texts.push((shared(alloc, name)?, shared(alloc, value)?))?;
                    is_set = true;
                    continue;
                }
                Ordering::Greater => {}
            }
        }
        texts.push((other.clone()?, text.clone()?))?;
    }
    if !is_set {
        texts.push((shared(alloc, name)?, shared(alloc, value)?))?;
    }
    SharedList::new(texts)
}

/// Copies a text. Copies of the copy share its memory.
fn shared(alloc: Global, text: &str) -> Result<Text, AllocError>
    ensures { IfOk result (λ copy. copy ≡ text.now) }
{
    let mut copy = Text::copied(alloc, text)?;
    copy.share()?;
    Ok(copy)
}

//! A find that is small enough to be kept.
ghost use Rattle.std.specs.Prelude.{◌≡◌, ◌+◌, ◌≤◌, length, IfOk, IfSome};
ghost use Rattle.std.specs.List.{sum_by};
ghost use Rattle.site_store.specs.Kept.{IsKeepable, size_of, bytes_of};

use plain_data::Shared;
use site_records::{Found, Post};
use std::alloc::AllocError;
use std::marker::Model;

/// The maximum number of bytes of titles and contents of a find that is kept.
const MOST_BYTES: usize = 1_048_576;

/// What a path found: at least one post, and at most 1 MiB of titles and contents.
#[derive(Drop)]
pub struct SmallFind {
    found: Shared<Found>,
    // How many bytes the titles and contents have.
    bytes: usize,
}

impl Model for SmallFind {
    ghost use Rattle.std.specs.Prelude.{◌≡◌};
    ghost use Rattle.std.specs.List.{sum_by};
    ghost use Rattle.site_records.specs.declared.found.Found.{Found as FoundValue};
    ghost use Rattle.site_store.specs.Kept.{IsKeepable, size_of};

    ghost Value = { FoundValue };

    ghost view = { λ f. f.found };

    ghost invariant = { λ f. (f.bytes ≡ sum_by size_of f.found.posts) × IsKeepable f.found.posts };
}

impl SmallFind {
    /// Shares what a path found, to be kept. `None` if there are no posts or their bytes are too
    /// many, or if it has too many owners to count.
    pub(crate) fn of(found: &Shared<Found>) -> Option<Self>
        ensures { IfSome result (λ find. find ≡ found.now) }
    {
        Some(SmallFind {
            bytes: bytes_to_keep(found.get().posts.as_slice())?,
            found: found.share().ok()?,
        })
    }

    /// Returns what was found, shared.
    pub(crate) fn shared(&self) -> Result<Shared<Found>, AllocError>
        ensures { IfOk result (λ found. found ≡ self.now) }
    {
        self.found.share()
    }

    /// Returns how many bytes count for what this path found.
    pub(crate) fn bytes_under(&self, path: &str) -> usize
        ensures bytes { result ≡ bytes_of (path.now, self.now) }
        ensures most { result ≤ length path.now + 1048576 }
    {
        path.len() + self.bytes
    }
}

/// Returns how many bytes the titles and contents have, if there are posts, and they have few enough
/// bytes to be kept.
fn bytes_to_keep(posts: &[Post]) -> Option<usize>
    ensures { IfSome result
        (λ bytes. (bytes ≡ sum_by size_of posts.now) × IsKeepable posts.now) }
{
    let mut bytes = 0;
    for post in posts {
        let title = post.title.as_str().len();
        let content = post.content.as_str().len();
        let room = MOST_BYTES - bytes;
        if title > room || content > room - title {
            return None;
        }
        bytes += title + content;
    }
    if posts.is_empty() {
        return None;
    }
    Some(bytes)
}

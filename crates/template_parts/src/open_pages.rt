//! The places of open pages.
ghost use Rattle.std.specs.Prelude.{◌≡◌, ◌<◌, [], ◌∷◌, None, Some, IfOk, IfSome, is_none};
ghost use Rattle.std.specs.Prelude.{position, slice_index_or, slice_set};

use crate::open_page::OpenPage;
use std::alloc::{AllocError, Global};
use std::marker::Model;

/// Open pages, at most eight, each in its place.
///
/// Contracts see a list of eight places, each with the page that is open there, if one is.
pub struct OpenPages {
    places: Vec<Option<OpenPage>>,
}

impl Model for OpenPages {
    ghost use Rattle.std.specs.Prelude.{◌≡◌, List, Option, length};
    ghost use Rattle.template_parts.specs.declared.open_page.OpenPage.{OpenPage};

    ghost Value = { List (Option OpenPage) };

    ghost view = { λ pages. pages.places.items };

    ghost invariant = { λ pages. length pages.places.items ≡ 8 };
}

/// Written out, so that a crate which owns open pages calls this drop, and proves no drop of what
/// they own.
impl Drop for OpenPages {
    fn drop(self) {
        let OpenPages { places: _ } = self;
    }
}

impl OpenPages {
    /// Makes eight places, all of them free.
    pub fn new(alloc: Global) -> Result<Self, AllocError>
        ensures { IfOk result (λ pages. pages
            ≡ None ∷ None ∷ None ∷ None ∷ None ∷ None ∷ None ∷ None ∷ []) }
    {
        let none = [None, None, None, None, None, None, None, None];
        Ok(OpenPages {
            places: Vec::from_array(alloc, none)?,
        })
    }

    /// Returns the first free place, if there is one.
    pub fn free_place(&self) -> Option<usize>
        ensures place { result ≡ position is_none self.now }
        ensures bound { IfSome result (λ place. place < 8) }
    {
        self.places.iter().position(|page| page.is_none())
    }

    /// Puts a page into a place, in place of any before.
    pub fn put(&mut self, place: usize, page: OpenPage)
        requires { place < 8 }
        ensures { self.new ≡ slice_set self.old place (Some page) }
    {
        drop(self.places[place].replace(page));
    }

    /// Takes the page out of a place, if one is there.
    pub fn take(&mut self, place: usize) -> Option<OpenPage>
        ensures page { result ≡ slice_index_or self.old place None }
        ensures left { self.new ≡ slice_set self.old place None }
        ensures bound { IfSome result (λ _. place < 8) }
    {
        let page = self.places.get_mut(place)?;
        page.take()
    }
}

//! Observers of the invocations of pages.
use crate::told::{PageEnd, PageName, Told};

/// An observer of the invocations of a site's pages. Nothing that it does changes a page.
pub trait Watch: Drop {
    /// Returns whether anything is to be told. If it is, pages are printed turn by turn.
    fn is_on(&self) -> bool;

    /// Is told that the page of a path was opened under a number, in place of any before.
    fn opened(&mut self, number: u32, path: &str);

    /// Is told of an invocation, right after it was made.
    fn invoked(&mut self, page: PageName<'_>, told: &Told<'_>);

    /// Is told that a page has ended, after some invocations.
    fn ended(&mut self, page: PageName<'_>, end: PageEnd, invocations: u32);
}

/// The observer that does nothing, for pages that nobody watches.
#[derive(Clone, Copy)]
pub struct Unwatched;

impl Watch for Unwatched {
    fn is_on(&self) -> bool {
        false
    }

    fn opened(&mut self, _number: u32, _path: &str) {}

    fn invoked(&mut self, _page: PageName<'_>, _told: &Told<'_>) {}

    fn ended(&mut self, _page: PageName<'_>, _end: PageEnd, _invocations: u32) {}
}

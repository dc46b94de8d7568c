//! A log of invocations.
ghost use Rattle.std.specs.Prelude.{
  ◌≡◌,
  ◌⊎◌,
  ℕ,
  not,
  true,
  false,
  option_map,
  OnOk,
  OnErr,
  IfOk,
  MatchOption,
  None,
  Some,
};
ghost use Rattle.std.specs.Io.KnownBytes.{Appends};
ghost use Rattle.byte_io.specs.Known.{AppendsFront};
ghost use Rattle.page_trace.specs.Line.{invocation_line, end_line};
ghost use Rattle.page_trace.specs.Log.{
  sink_of,
  has_failed,
  paths_of,
  path_at,
  path_named,
  number_named,
  Sets,
  Writes,
  WritesOrSkips,
  WritesFront,
};

use crate::line::{end_line, invocation_line};
use crate::paths::OpenPaths;
use crate::told::{PageEnd, PageName, Told};
use crate::watch::Watch;
use byte_io::{EndFault, Sink};
use std::alloc::{AllocError, Global};

/// Writes all the bytes, in as many writes as the sink wants. On `Err` some of them were written,
/// from their front, and the sink has failed.
fn write_all<W: Sink>(sink: &mut W, bytes: &[u8]) -> Result<(), EndFault>
    ensures ok { OnOk result (Appends (W.contents sink.old) (W.contents sink.new) bytes.now) }
    ensures part { OnErr result
        (AppendsFront (W.contents sink.old) (W.contents sink.new) bytes.now) }
    ensures fault { OnErr result (W.has_failed sink.new ≡ true) }
{
    let mut rest = bytes;
    while !rest.is_empty() {
        let taken = sink.write(rest)?;
        rest = &rest[taken..];
    }
    Ok(())
}

/// A log of invocations: a line of JSON for each as it is made, and one for the end of each page.
///
/// Nothing that goes wrong with it reaches a page. A line for which memory runs out is left out.
/// Once a write has failed, nothing more is written.
#[derive(Drop)]
pub struct PageTrace<W> {
    alloc: Global,
    sink: W,
    has_failed: bool,
    paths: OpenPaths,
}

impl<W: Sink + Drop> PageTrace<W> {
    /// Makes a log that writes to a sink. Nothing is written yet.
    pub fn new(alloc: Global, sink: W) -> Self
        ensures sink { sink_of result ≡ sink }
        ensures sound { has_failed result ≡ false }
        ensures paths { (number : ℕ) → path_at (paths_of result) number ≡ None }
    {
        PageTrace {
            alloc,
            sink,
            has_failed: false,
            paths: OpenPaths::new(alloc),
        }
    }

    /// Writes a line, unless a write has failed.
    fn write(&mut self, line: &[u8])
        ensures nothing { has_failed self.old ≡ true → self.new ≡ self.old }
        ensures whole { has_failed self.new ≡ false
            → Writes W.contents self.old self.new line.now }
        ensures part { WritesFront W.contents self.old self.new line.now }
        ensures fault { W.has_failed (sink_of self.new) ≡ false
            → has_failed self.new ≡ has_failed self.old }
        ensures paths { paths_of self.new ≡ paths_of self.old }
    {
        if self.has_failed {
            return;
        }
        match write_all(&mut self.sink, line) {
            Ok(()) => (),
            Err(EndFault) => self.has_failed = true,
        }
    }

    /// Makes the line of an invocation.
    fn told_line(&self, page: PageName<'_>, told: &Told<'_>) -> Result<Vec<u8>, AllocError>
        ensures { IfOk result (λ line. line.items
            ≡ invocation_line (path_named self.now page.entry) (number_named page.entry) told.now) }
    {
        match page {
            PageName::Path(path) => invocation_line(self.alloc, Some(path), None, told),
            PageName::Open(number) => {
                invocation_line(self.alloc, self.paths.get(number), Some(number), told)
            }
        }
    }

    /// Makes the line of a page's end.
    fn last_line(
        &self,
        page: PageName<'_>,
        end: PageEnd,
        invocations: u32,
    ) -> Result<Vec<u8>, AllocError>
        ensures { IfOk result (λ line. line.items
            ≡ end_line (path_named self.now page.entry) (number_named page.entry) end invocations) }
    {
        match page {
            PageName::Path(path) => end_line(self.alloc, Some(path), None, end, invocations),
            PageName::Open(number) => end_line(
                self.alloc,
                self.paths.get(number),
                Some(number),
                end,
                invocations,
            ),
        }
    }

    /// Writes the line of a page's end, unless a write has failed or memory runs out.
    fn write_end(&mut self, page: PageName<'_>, end: PageEnd, invocations: u32)
        ensures nothing { has_failed self.old ≡ true → self.new ≡ self.old }
        ensures whole { has_failed self.new ≡ false
            → WritesOrSkips W.contents self.old self.new
            (end_line (path_named self.old page.entry) (number_named page.entry) end invocations) }
        ensures part { WritesFront W.contents self.old self.new
            (end_line (path_named self.old page.entry) (number_named page.entry) end invocations) }
        ensures fault { W.has_failed (sink_of self.new) ≡ false
            → has_failed self.new ≡ has_failed self.old }
        ensures paths { paths_of self.new ≡ paths_of self.old }
    {
        if let Ok(line) = self.last_line(page, end, invocations) {
            self.write(&line);
        }
    }
}

impl<W: Sink + Drop> Watch for PageTrace<W> {
    fn is_on(&self) -> bool
        ensures { result ≡ not (has_failed self.now) }
    {
        !self.has_failed
    }

    fn opened(&mut self, number: u32, path: &str)
        ensures sink { sink_of self.new ≡ sink_of self.old }
        ensures fault { has_failed self.new ≡ has_failed self.old }

        // If memory runs out, its path is not known.
        ensures path { Sets (paths_of self.old) (paths_of self.new) number (Some path.now)
            ⊎ Sets (paths_of self.old) (paths_of self.new) number None }
    {
        // If memory runs out here, the page's lines have its number alone.
        let _ = self.paths.keep(self.alloc, number, path);
    }

    fn invoked(&mut self, page: PageName<'_>, told: &Told<'_>)
        ensures nothing { has_failed self.old ≡ true → self.new ≡ self.old }

        // If memory runs out, the line is left out.
        ensures whole { has_failed self.new ≡ false
            → WritesOrSkips W.contents self.old self.new
            (invocation_line (path_named self.old page.entry) (number_named page.entry) told.now) }
        ensures part { WritesFront W.contents self.old self.new
            (invocation_line (path_named self.old page.entry) (number_named page.entry) told.now) }
        ensures fault { W.has_failed (sink_of self.new) ≡ false
            → has_failed self.new ≡ has_failed self.old }
        ensures paths { paths_of self.new ≡ paths_of self.old }
    {
        if let Ok(line) = self.told_line(page, told) {
            self.write(&line);
        }
    }

    fn ended(&mut self, page: PageName<'_>, end: PageEnd, invocations: u32)
        ensures nothing { has_failed self.old ≡ true → (sink_of self.new ≡ sink_of self.old)
            × (has_failed self.new ≡ true) }

        // If memory runs out, the line is left out.
        ensures whole { has_failed self.new ≡ false
            → WritesOrSkips W.contents self.old self.new
            (end_line (path_named self.old page.entry) (number_named page.entry) end invocations) }
        ensures part { WritesFront W.contents self.old self.new
            (end_line (path_named self.old page.entry) (number_named page.entry) end invocations) }
        ensures fault { W.has_failed (sink_of self.new) ≡ false
            → has_failed self.new ≡ has_failed self.old }
        ensures path { MatchOption (number_named page.entry) (paths_of self.new ≡ paths_of self.old)
            (λ number. Sets (paths_of self.old) (paths_of self.new) number None) }
    {
        self.write_end(page, end, invocations);
        if let PageName::Open(number) = page {
            self.paths.forget(number);
        }
    }
}

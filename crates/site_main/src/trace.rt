//! Who is told of the invocations of pages: a log on standard error, with `--trace`, or nobody.
use site_program::{PageEnd, PageName, PageTrace, Told, Watch, Writing};
use std::io::Stderr;

/// A log, or nobody. It is one type, so that what serves is made once, and not once for each.
#[derive(Drop)]
pub(crate) struct Trace {
    log: Option<PageTrace<Writing<Stderr>>>,
}

impl Trace {
    /// Makes a log if it is asked for.
    pub(crate) fn new(rt: &HostRuntime, is_asked_for: bool) -> Trace {
        let log = if is_asked_for {
            Some(PageTrace::new(rt.alloc(), Writing::new(rt.stderr())))
        } else {
            None
        };
        Trace { log }
    }
}

impl Watch for Trace {
    fn is_on(&self) -> bool {
        match &self.log {
            Some(log) => log.is_on(),
            None => false,
        }
    }

    fn opened(&mut self, number: u32, path: &str) {
        if let Some(log) = &mut self.log {
            log.opened(number, path);
        }
    }

    fn invoked(&mut self, page: PageName<'_>, told: &Told<'_>) {
        if let Some(log) = &mut self.log {
            log.invoked(page, told);
        }
    }

    fn ended(&mut self, page: PageName<'_>, end: PageEnd, invocations: u32) {
        if let Some(log) = &mut self.log {
            log.ended(page, end, invocations);
        }
    }
}

//! A law of serving over HTTP: what was committed is not older than what was written.
ghost use Rattle.std.specs.Prelude.{◌≡◌, ℕ, List, [], false, option_map};
ghost use Rattle.std.specs.String.{string_bytes};
ghost use Rattle.byte_io.specs.Journal.{IsSettled};
ghost use Rattle.http_pages.specs.declared.service.PageService.{PageService as ServiceOf};
ghost use Rattle.http_streams.specs.Losses.{StopsAtALoss};
ghost use Rattle.http_server.specs.Connection.{history};
ghost use Rattle.http_server.specs.Exchange.{Call};
ghost use Rattle.http_server.specs.Rounds.{IsCleared, Round, Rounds, all_of, kept_of};
ghost use Rattle.http_server.specs.declared.connection.Connection.{Connection};
ghost use Rattle.site_http.specs.Ahead.{IsAhead};
ghost use Rattle.site_http.specs.Pages.{waiting_of};
ghost use Rattle.site_http.specs.declared.site_pages.SitePages.{SitePages as PagesOf};

use crate::site_pages::SitePages;
use byte_io::Journal;
use http_pages::PageService;
use http_server::Service;
use http_streams::Commits;
use page_trace::Watch;
use site_serving::Commands;

/// A law: after a run over HTTP (its premises are fields of `IsServedTo`), whatever the log is found to
/// hold has each edit that a response tells of. The journal had committed all before the run, and no
/// edit waited.
pub fn the_log_is_not_older<C: Commands, J: Journal, V: Watch>()
    ensures { (connection : Connection) (rounds : List (Round Call))
        (old new : ServiceOf (PagesOf C J V)) (held : List (List ℕ))
        → (history connection).calls ≡ all_of rounds
        → Rounds ⟦<PageService<SitePages<C, J, V>> as Service>⟧.answers
        ⟦<PageService<SitePages<C, J, V>> as Commits>⟧.settles old rounds new
        → IsCleared (kept_of rounds) connection
        → StopsAtALoss rounds
        → IsSettled J.written J.contents J.is_open J.may_hold J.noted old.pages.journal
        → waiting_of old.pages ≡ []
        → old.pages.is_lost ≡ false
        → J.may_hold new.pages.journal held
        → IsAhead C.Commands J.Journal (option_map string_bytes old.token) connection old.pages
        new.pages held }
{}

//! Worked pages of a site with the bundled plugins that are theorems: each clause of `worked_pages`
//! is computed from the definitions. [`serve_bytes`] shows that the premises of `Site::serve` can
//! be met.
#![tactic(auto)]

mod serving;

ghost use Rattle.std.specs.Prelude.{◌≡◌, codes, None, Some};
ghost use Rattle.site_replies.specs.declared.reply.Refusal.{Refusal};
ghost use Rattle.site_program.specs.Requests.{request};
ghost use Rattle.site_replies.specs.Reply.{refused, done, done_id, page, bytes_of};
ghost use Rattle.example_pages.specs.Worked.{IsMarked, bundled_engine, marked_turns};
ghost use Rattle.site_program.specs.State.{no_pages, with_page, after_turns};
ghost use Rattle.site_program.specs.Step.{step};

pub use serving::serve_bytes;

/// States what the bundled plugin `marks` makes of a site with one post. The call itself does
/// nothing: it carries these facts.
pub fn worked_pages()
    ensures line { (site : _) → IsMarked site.rows
        → step bundled_engine 10000 site (codes "{\"cmd\":\"get\",\"path\":\"/\"}")
        ≡ (site, page 200 (codes "<h2>TX1Y</h2>")) }

    // The page opens in the first place. Its three invocations are three turns, and the fourth
    // prints it.
    ensures opens { (site : _) → IsMarked site.rows → site.pages ≡ no_pages
        → step bundled_engine 10000 site (codes "{\"cmd\":\"begin\",\"path\":\"/\"}")
        ≡ (with_page site 0 (Some (marked_turns 4)), done_id 1) }
    ensures turns { after_turns 1 (marked_turns 4) ≡ (Some (marked_turns 3), done) }
    ensures more { after_turns 2 (marked_turns 3) ≡ (Some (marked_turns 1), done) }
    ensures last { after_turns 1 (marked_turns 1) ≡ (None, page 200 (codes "<h2>TX1Y</h2>")) }
    ensures all { after_turns 100 (marked_turns 4) ≡ (None, page 200 (codes "<h2>TX1Y</h2>")) }
    ensures first { (rows : _) → IsMarked rows
        → request bundled_engine 10000 rows (codes "/") ≡ page 200 (codes "<h2>TX1Y</h2>") }
    ensures bytes { (rows : _) → IsMarked rows
        → bytes_of (request bundled_engine 10000 rows (codes "/"))
        ≡ codes "page 200 13\n<h2>TX1Y</h2>\n" }
    ensures missing { (rows : _) → IsMarked rows
        → request bundled_engine 10000 rows (codes "/x")
        ≡ page 404 (codes "<p>Nothing found.</p>") }

    // Two callbacks run on the title and core's own one on the content, so three calls are enough
    // and two are not.
    ensures enough { (rows : _) → IsMarked rows
        → request bundled_engine 3 rows (codes "/") ≡ page 200 (codes "<h2>TX1Y</h2>") }
    ensures too_few { (rows : _) → IsMarked rows
        → request bundled_engine 2 rows (codes "/") ≡ refused Refusal.TooManyCalls }
{}

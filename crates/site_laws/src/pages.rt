//! Laws of sites. A law is a function without a body: what it ensures holds of all that it names.
ghost use Rattle.std.specs.Prelude.{◌≡◌, ◌≢◌, ◌+◌, ◌≤◌, List, ℕ, All, Some, length};
ghost use Rattle.hook_meaning.specs.Agreement.{AgreeOn};
ghost use Rattle.hook_meaning.specs.Meaning.{Engine};
ghost use Rattle.hook_machine.specs.Outcomes.{engine_over};
ghost use Rattle.hook_meaning.specs.Throughout.{IsWithinCalls, IsWithinDepth};
ghost use Rattle.hook_meaning.specs.Trace.{turns_of};
ghost use Rattle.plain_data.specs.Texts.{Text};
ghost use Rattle.post_tables.specs.Rows.{Rows};
ghost use Rattle.site_program.specs.History.{Serves};
ghost use Rattle.site_serving.specs.Served.{AreCarriedOut, Replied, lines_in};
ghost use Rattle.site_program.specs.Requests.{HasRunNothing, Opened, first_world, request};
ghost use Rattle.site_program.specs.Requests.{requested, work_of};
ghost use Rattle.site_store.specs.Stored.{Texts, active_of};
ghost use Rattle.site_program.specs.Serving.{IsReplies};
ghost use Rattle.site_program.specs.State.{State, empty_site, page_in};
ghost use Rattle.site_program.specs.Step.{step, place_turned};
ghost use Rattle.site_laws.specs.Through.{through, StaysAmong};

use callback_store::{Plugins, Stated};

/// A law: no page of a site goes past its calls and 32 levels. In the world in which a page begins
/// all of its calls are left, the depth is 0 and nothing is printed. From there it makes at most as
/// many invocations as it has calls, and goes at most 32 levels deep, so that it ends at the turn
/// after its last call at the latest.
pub fn site_pages_keep_to_their_bounds()
    ensures begins { (engine : Engine) (calls : ℕ) (options : Texts) (active : List Text)
        → HasRunNothing calls (first_world engine calls options active) }
    ensures calls { (engine : Engine) (calls : ℕ) (rows : Rows) (path : Text)
        → IsWithinCalls calls (work_of engine calls rows path) }
    ensures depth { (engine : Engine) (calls : ℕ) (rows : Rows) (path : Text)
        → IsWithinDepth (work_of engine calls rows path) }
    ensures turns { (engine : Engine) (calls : ℕ) (rows : Rows) (path : Text)
        → (requested engine calls rows path).left ≤ calls + 1 }
{}

/// A law: whatever lines are carried out, an open page stays as it is, with its bytes and its
/// turns, if none of the lines gives it turns. That holds also of lines that are refused, for
/// whatever reason.
pub fn open_pages_stay()
    ensures { (engine : Engine) (calls : ℕ) (old new : State) (lines : List (List ℕ)) (out : List ℕ)
        → IsReplies (step engine calls) old lines out new
        → (place : ℕ) (page : Opened) → page_in place old.pages ≡ Some page
        → All (λ line. place_turned line ≢ Some place) lines
        → page_in place new.pages ≡ Some page }
{}

/// A law: inactive plugins have no say in a page. If two bundles agree on a site's active plugins,
/// the reply to each path is the same under both, and so is how many invocations its page makes: a
/// page that is opened by turns has the same bytes and as many turns.
pub fn inactive_plugins_have_no_say<S: Stated, T: Stated>(one: &Plugins<S>, other: &Plugins<T>)
    ensures request { (calls : ℕ) (rows : Rows) (path : Text)
        → AgreeOn (active_of rows) (engine_over S.says S.number one.now)
        (engine_over T.says T.number other.now)
        → request (engine_over S.says S.number one.now) calls rows path
        ≡ request (engine_over T.says T.number other.now) calls rows path }
    ensures invocations { (calls : ℕ) (rows : Rows) (path : Text)
        → AgreeOn (active_of rows) (engine_over S.says S.number one.now)
        (engine_over T.says T.number other.now)
        → length (turns_of (work_of (engine_over S.says S.number one.now) calls rows path))
        ≡ length (turns_of (work_of (engine_over T.says T.number other.now) calls rows path)) }
    ensures requested { (calls : ℕ) (rows : Rows) (path : Text)
        → AgreeOn (active_of rows) (engine_over S.says S.number one.now)
        (engine_over T.says T.number other.now)
        → requested (engine_over S.says S.number one.now) calls rows path
        ≡ requested (engine_over T.says T.number other.now) calls rows path }
{}

/// A law: inactive plugins never have a say. If two bundles agree on some plugins, and under the
/// first no other plugin is active after any of some lines, then from the empty site the reply to
/// each line and the site after it, its rows and its open pages, are the same under both.
pub fn inactive_plugins_have_no_say_ever<S: Stated, T: Stated>(one: &Plugins<S>, other: &Plugins<T>)
    ensures { (names : List Text) (calls : ℕ) (lines : List (List ℕ))
        → AgreeOn names (engine_over S.says S.number one.now)
        (engine_over T.says T.number other.now)
        → StaysAmong names (through (step (engine_over S.says S.number one.now) calls) empty_site
        lines)
        → through (step (engine_over S.says S.number one.now) calls) empty_site lines
        ≡ through (step (engine_over T.says T.number other.now) calls) empty_site lines }
{}

/// A law: the same for two sites that serve, if neither refuses a line on allocation failure or by
/// the database. Under the two bundles they reply alike to the same lines, and are the same after
/// them.
pub fn inactive_plugins_have_no_say_in_replies<S: Stated, T: Stated>(
    one: &Plugins<S>,
    other: &Plugins<T>,
)
    ensures { (names : List Text) (calls : ℕ) (replied alike : List Replied) (new after : State)
        → AgreeOn names (engine_over S.says S.number one.now)
        (engine_over T.says T.number other.now)
        → Serves (step (engine_over S.says S.number one.now) calls) empty_site replied new
        → Serves (step (engine_over T.says T.number other.now) calls) empty_site alike after
        → lines_in replied ≡ lines_in alike → AreCarriedOut replied → AreCarriedOut alike
        → StaysAmong names (through (step (engine_over S.says S.number one.now) calls) empty_site
        (lines_in replied))
        → (replied ≡ alike) × (new ≡ after) }
{}

//! A file and the site that it makes.
ghost use Rattle.std.specs.Prelude.{◌≡◌, ℕ, List, Option, None, Result};
ghost use Rattle.hook_meaning.specs.Meaning.{Engine};
ghost use Rattle.site_program.specs.History.{is_kept, rows_after};
ghost use Rattle.site_laws.specs.Given.{names_of};
ghost use Rattle.site_program.specs.State.{State, empty_site};
ghost use Rattle.site_program.specs.Step.{IsReply, step};
ghost use Rattle.site_replies.specs.declared.fault.ServeFault.{ServeFault};
ghost use Rattle.site_tasks.specs.Lasting.{Lasts};
ghost use Rattle.sqlite.specs.Recovery.{Image};

use crate::log_law::the_log_is_the_site;
use crate::programs::rows_rest_on_names;

/// A law: a file is the site. What an open finds after a run that served an empty site from a file,
/// as `leaves` of `ServeLines` says it, makes the rows of the site at the last line that
/// lasts, and the client was sent replies to lines up to that one alone. So it does in a later
/// program whose plugins have the same names, whatever its number of calls.
pub fn the_file_is_the_site()
    ensures { (engine other : Engine) (calls more : ℕ) (image : Image) (identity : List ℕ)
        (last : State) (input before after : Option (List ℕ)) (result : Result (Unit {0}) ServeFault)
        (found : List (List ℕ))
        → names_of engine ≡ names_of other
        → (run : Lasts (step engine calls) (IsReply (step engine calls)) is_kept image identity
        empty_site last input before after result found)
        → run.state.rows ≡ rows_after other more None found }
{
    // Called for their clauses alone.
    the_log_is_the_site();
    rows_rest_on_names();
}

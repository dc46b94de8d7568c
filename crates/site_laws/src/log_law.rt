//! A law: a log is the site. A law is a function without a body.
ghost use Rattle.std.specs.Prelude.{◌≡◌, ◌++◌, List, ℕ, Option};
ghost use Rattle.hook_meaning.specs.Meaning.{Engine};
ghost use Rattle.site_program.specs.History.{Serves, history, rows_after};
ghost use Rattle.site_serving.specs.Served.{Replied};
ghost use Rattle.site_program.specs.State.{State};
ghost use Rattle.site_program.specs.Step.{step};

/// A law: a log is the site. If the lines of a log make the rows of a site, then so they do after
/// the site has served, with the edits that were done after them.
///
/// And if some held lines are those of the log and the edits that were done at some first lines,
/// they make the rows of that moment. No file and no crash is in this law; the clause `ahead` of
/// [`Site::serve`](site_program::Site::serve) says when a log holds such lines.
pub fn the_log_is_the_site()
    ensures served { (engine : Engine) (calls : ℕ) (limit : Option ℕ) (old new : State)
        (noted : List (List ℕ))
        (replied : List Replied)
        → old.rows ≡ rows_after engine calls limit noted
        → Serves (step engine calls) old replied new
        → new.rows ≡ rows_after engine calls limit (noted ++ history replied) }
    ensures left { (engine : Engine) (calls : ℕ) (limit : Option ℕ) (old new : State)
        (noted held : List (List ℕ))
        (front back : List Replied)
        → old.rows ≡ rows_after engine calls limit noted
        → Serves (step engine calls) old (front ++ back) new
        → held ≡ noted ++ history front
        → (mid : State) × Serves (step engine calls) old front mid
        × Serves (step engine calls) mid back new
        × (mid.rows ≡ rows_after engine calls limit held) }
{}

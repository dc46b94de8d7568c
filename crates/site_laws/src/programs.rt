//! Laws of one history under several programs. A law is a function without a body.
ghost use Rattle.std.specs.Prelude.{◌≡◌, List, ℕ, Option, Some};
ghost use Rattle.hook_meaning.specs.Meaning.{Engine};
ghost use Rattle.site_commands.specs.Asked.{get};
ghost use Rattle.site_commands.specs.Worked.{line_command};
ghost use Rattle.site_laws.specs.Given.{AreEdits, AreGivenTheSame, edits_in, names_of};
ghost use Rattle.site_program.specs.History.{replies_to, rows_after};
ghost use Rattle.site_program.specs.State.{State, empty_under};
ghost use Rattle.site_program.specs.Step.{step};
ghost use Rattle.site_serving.specs.Served.{Replied};

/// A law: what a site stores rests on its lines and on the names of the plugins. It rests neither on
/// how many calls a page may make nor on what callbacks reply or a load list has. So a file is the
/// same site under another number of calls, and each of its edits gets the same reply.
pub fn rows_rest_on_names()
    ensures rows { (one other : Engine) (calls more : ℕ) (limit : Option ℕ) (lines : List (List ℕ))
        → names_of one ≡ names_of other
        → rows_after one calls limit lines ≡ rows_after other more limit lines }
    ensures replies { (one other : Engine) (calls more : ℕ) (limit : Option ℕ)
        (lines : List (List ℕ))
        → names_of one ≡ names_of other
        → AreEdits lines
        → replies_to (step one calls) (empty_under limit) lines
        ≡ replies_to (step other more) (empty_under limit) lines }
{}

/// A law: sites that begin with the same rows and are given the same edits agree. Each edit gets the
/// same reply in both sites, and they have the same rows; so they reply alike to `get` if they have
/// the same plugins and their pages may make the same number of calls.
pub fn sites_given_the_same_edits_agree()
    ensures rows { (one other : Engine) (calls more : ℕ) (first second new after : State)
        (replied also : List Replied)
        → names_of one ≡ names_of other
        → AreGivenTheSame (step one calls) (step other more) first second replied also new after
        → new.rows ≡ after.rows }
    ensures replies { (one other : Engine) (calls more : ℕ) (first second new after : State)
        (replied also : List Replied)
        → names_of one ≡ names_of other
        → AreGivenTheSame (step one calls) (step other more) first second replied also new after
        → edits_in replied ≡ edits_in also }
    ensures pages { (engine : Engine) (calls : ℕ) (first second new after : State)
        (replied also : List Replied)
        → AreGivenTheSame (step engine calls) (step engine calls) first second replied also new
        after
        → (line path : List ℕ) → line_command line ≡ Some (get path)
        → (step engine calls new line).1 ≡ (step engine calls after line).1 }
{}

//! Laws of histories: a site as the edits that were done, under one engine and one number of calls.
//! A law is a function without a body.
ghost use Rattle.std.specs.Prelude.{◌≡◌, ◌≤◌, [], ◌∷◌, ◌++◌, List, ℕ, Option, Some, length};
ghost use Rattle.hook_meaning.specs.Meaning.{Engine};
ghost use Rattle.site_commands.specs.Asked.{get};
ghost use Rattle.site_commands.specs.Worked.{line_command};
ghost use Rattle.site_replies.specs.Reply.{ReplyData};
ghost use Rattle.site_program.specs.State.{State, empty_under};
ghost use Rattle.site_program.specs.Step.{IsReply, step};
ghost use Rattle.site_program.specs.Serving.{IsReplies};
ghost use Rattle.site_program.specs.History.{Serves, history, kept_history, replies_to, site_after};
ghost use Rattle.site_serving.specs.Served.{AreCarriedOut, Replied, lines_in, written_for};

/// A law: a site is its history, the edits that were done. Whatever lines an empty site serves, and
/// whichever of them memory or the database refuses, its history makes it anew: carried out alone,
/// with no such refusal, these edits leave the same rows, and each gets the reply that it got
/// before.
pub fn history_rebuilds_the_site()
    ensures rows { (engine : Engine) (calls : ℕ) (limit : Option ℕ) (new : State)
        (replied : List Replied)
        → Serves (step engine calls) (empty_under limit) replied new
        → (site_after (step engine calls) (empty_under limit) (history replied)).rows ≡ new.rows }
    ensures replies { (engine : Engine) (calls : ℕ) (limit : Option ℕ) (new : State)
        (replied : List Replied)
        → Serves (step engine calls) (empty_under limit) replied new
        → replies_to (step engine calls) (empty_under limit) (history replied)
        ≡ kept_history replied }
{}

/// A law: the history since some moment brings a copy of the rows of that moment up to date,
/// whatever pages are open in the copy and whatever its limit on steps.
pub fn history_goes_on_over_a_copy()
    ensures rows { (engine : Engine) (calls : ℕ) (limit : Option ℕ) (old new copy : State)
        (replied : List Replied)
        → Serves (step engine calls) old replied new
        → copy.rows ≡ record old.rows { step_limit = limit }
        → (site_after (step engine calls) copy (history replied)).rows
        ≡ record new.rows { step_limit = limit } }
    ensures replies { (engine : Engine) (calls : ℕ) (limit : Option ℕ) (old new copy : State)
        (replied : List Replied)
        → Serves (step engine calls) old replied new
        → copy.rows ≡ record old.rows { step_limit = limit }
        → replies_to (step engine calls) copy (history replied) ≡ kept_history replied }
{}

/// A law: a history is enough after each line, not only after the last. That of some lines and the
/// lines after them is the history of the former, which makes the site of that moment anew, and
/// then that of the latter. It is never longer than the lines that were served.
pub fn kept_lines_are_enough_ever()
    ensures rows { (engine : Engine) (calls : ℕ) (limit : Option ℕ) (new : State)
        (before after : List Replied)
        → Serves (step engine calls) (empty_under limit) (before ++ after) new
        → (mid : State) × Serves (step engine calls) (empty_under limit) before mid
        × Serves (step engine calls) mid after new
        × ((site_after (step engine calls) (empty_under limit) (history before)).rows ≡ mid.rows) }
    ensures grows { (before after : List Replied) → history (before ++ after) ≡ history before
        ++ history after }
    ensures short { (replied : List Replied) → length (history replied) ≤ length replied }
{}

/// A law: two sites with one history have the same rows, and reply alike to `get`, whatever else
/// each was asked and whatever was refused there.
pub fn sites_of_one_history_agree()
    ensures rows { (engine : Engine) (calls : ℕ) (limit : Option ℕ) (one two : State)
        (first second : List Replied)
        → Serves (step engine calls) (empty_under limit) first one
        → Serves (step engine calls) (empty_under limit) second two
        → history first ≡ history second
        → one.rows ≡ two.rows }
    ensures pages { (engine : Engine) (calls : ℕ) (limit : Option ℕ) (one two : State)
        (first second : List Replied)
        → Serves (step engine calls) (empty_under limit) first one
        → Serves (step engine calls) (empty_under limit) second two
        → history first ≡ history second
        → (line path : List ℕ) → line_command line ≡ Some (get path)
        → (step engine calls one line).1 ≡ (step engine calls two line).1 }
{}

/// A law: a site that serves the history of another, and refuses none of it on allocation failure
/// or by the database, replies as that one did and has its rows.
pub fn a_copy_agrees()
    ensures rows { (engine : Engine) (calls : ℕ) (limit : Option ℕ) (new copy : State)
        (replied again : List Replied)
        → Serves (step engine calls) (empty_under limit) replied new
        → Serves (step engine calls) (empty_under limit) again copy
        → lines_in again ≡ history replied → AreCarriedOut again
        → copy.rows ≡ new.rows }
    ensures replies { (engine : Engine) (calls : ℕ) (limit : Option ℕ) (new copy : State)
        (replied again : List Replied)
        → Serves (step engine calls) (empty_under limit) replied new
        → Serves (step engine calls) (empty_under limit) again copy
        → lines_in again ≡ history replied → AreCarriedOut again
        → again ≡ kept_history replied }
{}

/// A law: `Serves`, which has the replies as a list, says the same of lines as `IsReplies`, which
/// has them as bytes. One more line that is carried out is one more in the list.
pub fn replies_are_written()
    ensures bytes { (engine : Engine) (calls : ℕ) (old new : State) (replied : List Replied)
        → Serves (step engine calls) old replied new
        → IsReplies (step engine calls) old (lines_in replied) (written_for replied) new }
    ensures replies { (engine : Engine) (calls : ℕ) (old new : State) (lines : List (List ℕ))
        (out : List ℕ)
        → IsReplies (step engine calls) old lines out new
        → (replied : List Replied) × Serves (step engine calls) old replied new
        × (lines_in replied ≡ lines)
        × (written_for replied ≡ out) }
    ensures more { (engine : Engine) (calls : ℕ) (old mid new : State) (replied : List Replied)
        (line : List ℕ)
        (reply : ReplyData)
        → Serves (step engine calls) old replied mid
        → IsReply (step engine calls) mid line reply new
        → Serves (step engine calls) old (replied ++ record { line = line; reply = reply }
        ∷ []) new }
{}

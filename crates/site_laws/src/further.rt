//! A bundle of plugins, and the same with further ones.
ghost use Rattle.std.specs.Prelude.{◌≡◌, ◌∷◌, [], List, ℕ, codes, true, false};
ghost use Rattle.hook_meaning.specs.Meaning.{Engine};
ghost use Rattle.plain_data.specs.Texts.{Text};
ghost use Rattle.post_tables.specs.Rows.{Rows};
ghost use Rattle.site_laws.specs.Further.{AddsTo, NameNone, are_apart, program};
ghost use Rattle.site_program.specs.History.{Serves};
ghost use Rattle.site_program.specs.Requests.{request};
ghost use Rattle.site_program.specs.State.{State, empty_site};
ghost use Rattle.site_program.specs.Step.{step};
ghost use Rattle.site_laws.specs.Through.{through};
ghost use Rattle.site_serving.specs.Served.{AreCarriedOut, Replied, lines_in};
ghost use Rattle.site_store.specs.Stored.{active_of};

/// A law: further plugins have no say. If a bundle has the plugins of another one and some more, and
/// none of these is active, the reply to each path is the same under both. While no line names one of
/// them, that holds of the reply to each line, and of the site after it; and so for two sites that
/// serve, if neither refuses a line on allocation failure or by the database.
pub fn further_plugins_have_no_say()
    ensures request { (further : List Text) (one other : Engine) (calls : ℕ) (rows : Rows)
        (path : Text)
        → AddsTo further one other → are_apart further (active_of rows) ≡ true
        → request one calls rows path ≡ request other calls rows path }
    ensures lines { (further : List Text) (one other : Engine) (calls : ℕ) (lines : List (List ℕ))
        → AddsTo further one other → NameNone further lines
        → through (step one calls) empty_site lines ≡ through (step other calls) empty_site lines }
    ensures replies { (further : List Text) (one other : Engine) (calls : ℕ)
        (replied alike : List Replied) (new after : State)
        → AddsTo further one other
        → Serves (step one calls) empty_site replied new
        → Serves (step other calls) empty_site alike after
        → lines_in replied ≡ lines_in alike → NameNone further (lines_in replied)
        → AreCarriedOut replied → AreCarriedOut alike
        → (replied ≡ alike) × (new ≡ after) }
{}

/// A law: the same of the program. While `snippets` is not active, `--snippets` changes no page; and
/// while no line names it, neither a reply nor the site.
pub fn snippets_have_no_say()
    ensures request { (calls : ℕ) (rows : Rows) (path : Text)
        → are_apart (codes "snippets" ∷ []) (active_of rows) ≡ true
        → request (program false) calls rows path ≡ request (program true) calls rows path }
    ensures lines { (calls : ℕ) (lines : List (List ℕ))
        → NameNone (codes "snippets" ∷ []) lines
        → through (step (program false) calls) empty_site lines
        ≡ through (step (program true) calls) empty_site lines }
{}

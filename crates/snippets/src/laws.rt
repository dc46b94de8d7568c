//! Laws of templates. A law is a function without a body: its contract is the fact.
ghost use Rattle.std.specs.Prelude.{◌≡◌, ◌∷◌, ℕ, List, [], codes, flat_map, false};
ghost use Rattle.hook_changes.specs.declared.reply.Call.{Call};
ghost use Rattle.snippets.specs.Markup.{AreInPlace, emptied, emptied_call, markup_of, marks, prints_after};
ghost use Rattle.snippets.specs.Places.{Between, Nowhere, place_after};
ghost use Rattle.snippets.specs.Snippets.{says};
ghost use Rattle.snippets.specs.Templates.{Values, is_script, pieces_of, printed, safe, text_in};

/// A law: a value adds no markup, takes none away and moves none. What a template prints has the
/// `<`, `>`, `"` and `'` that it would have if each value were empty, in the same order; and the
/// reply of a callback to a call registers the same, and asks for the same.
pub fn values_add_no_markup()
    ensures templates { (template content : List ℕ) (values : Values)
        → marks (printed template values content) ≡ marks (printed template (emptied values) content) }
    ensures replies { (number : ℕ) (call : Call)
        → markup_of (says number call) ≡ markup_of (says number (emptied_call call)) }

    // A value is printed between tags or within quotes alone, by all that is printed before it; the
    // contents, which are printed as they are, aside.
    ensures places { (template content : List ℕ) (values : Values)
        → AreInPlace Between (pieces_of template values content) }
    ensures pieces { (template content : List ℕ) (values : Values)
        → printed template values content ≡ flat_map text_in (pieces_of template values content) }

    // None is printed after a `<!--` in a script, whose end no text is taken for.
    ensures nowhere { (text : List ℕ) → place_after Nowhere text ≡ Nowhere }

    // And no value is printed that a browser would read as an address that is a program.
    ensures scripts { (value : List ℕ) → is_script (safe value) ≡ false }
{}

/// States what some templates print. The call itself does nothing: it carries these facts.
pub fn worked_templates()
    ensures default { printed (codes "<a href=\"{{href|#}}\">{{content}}</a>") [] (codes "Home")
        ≡ codes "<a href=\"#\">Home</a>" }
    ensures escaped { printed (codes "<b title=\"{{t}}\">") ((codes "t", codes "\"><script>") ∷ []) []
        ≡ codes "<b title=\"&quot;&gt;&lt;script&gt;\">" }
    ensures script { printed (codes "{{href}}")
        ((codes "href", codes " JavaScript:alert(1)") ∷ []) [] ≡ [] }
    ensures section { printed (codes "a{{#by}} by {{by}}{{/by}}.") [] [] ≡ codes "a." }
    ensures inverted { printed (codes "{{^by}}by nobody{{/by}}.") [] [] ≡ codes "by nobody." }
    ensures no_part { printed (codes "{{a b}} {{x") [] [] ≡ codes "{{a b}} {{x" }
    ensures doctype { printed (codes "<!DOCTYPE html><p>{{a}}</p>") ((codes "a", codes "1") ∷ []) []
        ≡ codes "<!DOCTYPE html><p>1</p>" }
    ensures comment { printed (codes "<!-- {{a}} -->") ((codes "a", codes "1") ∷ []) []
        ≡ codes "<!--  -->" }
{}

/// States where some texts of templates end. The call itself does nothing: it carries these facts.
pub fn worked_places()
    ensures text { prints_after (codes "a < b <i x=\"y\">") ≡ codes "1" }
    ensures quotes { prints_after (codes "<a href = '/?p=") ≡ codes "1" }
    ensures no_quotes { prints_after (codes "<a href=") ≡ [] }
    ensures tag { prints_after (codes "<a \"") ≡ [] }
    ensures name { prints_after (codes "<h") ≡ [] }
    ensures script { prints_after (codes "<SCRIPT>x = \"</b>") ≡ [] }
    ensures after_script { prints_after (codes "<script src=\"/a.js\"></script >") ≡ codes "1" }
    ensures escaped { prints_after (codes "<script><!--<script></script>") ≡ [] }
    ensures escaped_once { prints_after (codes "<script><!-- --></script>") ≡ [] }
    ensures dash { prints_after (codes "<script>a<!-b</script>") ≡ codes "1" }
    ensures style { prints_after (codes "<style>b{") ≡ [] }
    ensures after_style { prints_after (codes "<style><!--b{}--></style>") ≡ codes "1" }
    ensures strong { prints_after (codes "<strong>") ≡ codes "1" }
    ensures comment { prints_after (codes "<!-- a > ") ≡ [] }
    ensures after_comment { prints_after (codes "<!--- a --->") ≡ codes "1" }
    ensures empty_comment { prints_after (codes "<!-->") ≡ codes "1" }
    ensures dashed_comment { prints_after (codes "<!--->") ≡ codes "1" }
    ensures doctype { prints_after (codes "<!DOCTYPE html") ≡ [] }
    ensures after_doctype { prints_after (codes "<!DOCTYPE html SYSTEM \"-->") ≡ codes "1" }
    ensures declaration { prints_after (codes "<!->") ≡ codes "1" }
    ensures instruction { prints_after (codes "<?xml version=\"1.0\" ?") ≡ [] }
    ensures after_instruction { prints_after (codes "<?xml version=\"1.0\" ?>") ≡ codes "1" }
    ensures end_tag { prints_after (codes "</p") ≡ [] }
    ensures after_end_tag { prints_after (codes "</p></>") ≡ codes "1" }
    ensures no_end_tag { prints_after (codes "</ a=\"><script>") ≡ [] }
{}

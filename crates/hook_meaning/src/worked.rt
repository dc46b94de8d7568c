//! Worked passes that are theorems: each clause below is computed from the definitions.
ghost use Rattle.std.specs.Prelude.{◌≡◌, ◌∷◌, ◌++◌, [], IsTrue, IsFalse, codes, length, replicate};
ghost use Rattle.std.specs.Prelude.{Ok, Err};
ghost use Rattle.hook_meaning.specs.declared.fault.RunFault.{RunFault};
ghost use Rattle.hook_meaning.specs.World.{is_active};
ghost use Rattle.hook_meaning.specs.Trace.{turns_of};
ghost use Rattle.hook_meaning.specs.Throughout.{names_active};
ghost use Rattle.hook_meaning.specs.Agreement.{AgreeOn};
ghost use Rattle.hook_meaning.specs.TwoBundles as two;
ghost use Rattle.hook_meaning.specs.Worked.{bundle, loaded_with, title_pass, title, two_titles};
ghost use Rattle.hook_meaning.specs.Worked.{unordered_title, footer, replaced_text, content};
ghost use Rattle.hook_meaning.specs.Worked.{text_with_marks};
ghost use Rattle.hook_meaning.specs.Worked.{marked_content};

/// States what a small bundle of plugins makes of titles, a footer and texts with shortcodes. The
/// call itself does nothing: it carries these facts.
pub fn worked_passes()
    // Two callbacks at one priority, one of them added again: it keeps its place and takes the new
    // accepted count.
    ensures added_again { title 20 (codes "marks") (codes "T") ≡ Ok (codes "TX1Y") }
    ensures inactive { title 20 (codes "other") (codes "T") ≡ Ok (codes "T") }

    // Load lists are carried out by the names of the plugins, however the plugins are listed.
    ensures load_order { unordered_title (codes "T") ≡ Ok (codes "T1Y") }

    // Callbacks 1 and 2 are those of `marks`, and 14 is one of another plugin. Only the first two
    // are registered, and each takes one turn.
    ensures active { IsTrue (is_active bundle (loaded_with 20 (codes "marks")) 1) }
    ensures not_active { IsFalse (is_active bundle (loaded_with 20 (codes "marks")) 14) }
    ensures registered { IsTrue (names_active bundle (loaded_with 20 (codes "marks"))) }
    ensures no_longer_active { IsFalse
        (names_active bundle (record (loaded_with 20 (codes "marks")) { active = [] })) }
    ensures turns { length (turns_of (title_pass (loaded_with 20 (codes "marks")) (codes "T")))
        ≡ 2 }

    // A callback that removes and adds itself at its own priority runs once.
    ensures itself { title 20 (codes "once") [] ≡ Ok (codes "124") }

    // What is added in mid-pass at a lower or the same priority waits for the next pass, and a
    // higher one runs in this.
    ensures added_in_mid_pass { two_titles (codes "grow") ≡ Ok (codes "a7", codes "5a97") }

    // A callback that takes itself out, asks for a pass of its own hook, and puts itself back after
    // the others.
    ensures nested { two_titles (codes "nest") ≡ Ok (codes "1-134-234", codes "13-134-24") }
    ensures accepted { title 20 (codes "args") (codes "T") ≡ Ok (codes "n0(2 1)") }
    ensures ends_of_priorities { title 20 (codes "edges") [] ≡ Ok (codes "cb") }

    // An action without arguments gives its callbacks one empty text, and is counted before they
    // run.
    ensures empty_argument { footer (codes "args") ≡ Ok (codes "[1:]") }
    ensures counted_before { footer (codes "count") ≡ Ok (codes "1") }

    // Each invocation takes a call: three are enough, and two are not.
    ensures enough_calls { title 3 (codes "deep") (codes "d") ≡ Ok (codes "()") }
    ensures too_few_calls { title 2 (codes "deep") (codes "d") ≡ Err RunFault.TooManyCalls }
    ensures asks_for_ever { title 100 (codes "deep") (codes "spin")
        ≡ Err RunFault.TooManyCalls }
    ensures deepest { title 10000 (codes "deep") (replicate 32 100)
        ≡ Ok (replicate 32 40 ++ replicate 32 41) }
    ensures too_deep { title 10000 (codes "deep") (replicate 33 100) ≡ Err RunFault.TooDeep }

    // Shortcodes: escaped ones, the first closing tag, a handler that asks for those of its own
    // content, one that removes a tag in mid-pass, and one whose answer has a shortcode in it.
    ensures escaped { replaced_text (codes "[[b]x[/b]]") ≡ Ok (codes "[b]x[/b]") }
    ensures half_escaped { replaced_text (codes "[[b]] and [b]x[/b]")
        ≡ Ok (codes "[<b>] and [b]x</b>") }
    ensures first_closing { replaced_text (codes "[b][b]x[/b][/b]") ≡ Ok (codes "<b>[b]x</b>[/b]") }
    ensures own_content { replaced_text (codes "[i]a[b]c[/b][/i]") ≡ Ok (codes "<i>a<b>c</b></i>") }
    ensures removed_in_mid_pass { replaced_text (codes "[off][b]x[/b]") ≡ Ok (codes "[b]x[/b]") }
    ensures not_scanned_again { replaced_text (codes "[raw]") ≡ Ok (codes "[b]y[/b]") }
    ensures by_core { content (codes "[b]x[/b]") ≡ Ok (codes "<b>x</b>") }

    // What replaces a shortcode goes through `do_shortcode_tag` with its tag: extra brackets are
    // part of it, and an empty answer goes through too. An escaped shortcode doesn't, nor one whose
    // tag was removed in mid-pass.
    ensures marked_answer { text_with_marks 100 (codes "[b]x[/b]") ≡ Ok (codes "<b>x</b>{b}") }
    ensures marked_extra { text_with_marks 100 (codes "[[b]x[/b]") ≡ Ok (codes "[<b>x</b>{b}") }
    ensures marked_once { text_with_marks 100 (codes "[raw]") ≡ Ok (codes "[b]y[/b]{raw}") }
    ensures marked_within { text_with_marks 100 (codes "[i]a[b]c[/b][/i]")
        ≡ Ok (codes "<i>a<b>c</b>{b}</i>{i}") }
    ensures marked_empty { text_with_marks 100 (codes "[off][b]x[/b]")
        ≡ Ok (codes "{off}[b]x[/b]") }
    ensures unmarked_escape { text_with_marks 100 (codes "[[b]]") ≡ Ok (codes "[b]") }

    // The handler and the filter's callback take a call each, and core's callback one before them.
    ensures marked_calls { text_with_marks 2 (codes "[b]x[/b]") ≡ Ok (codes "<b>x</b>{b}") }
    ensures too_few_to_mark { text_with_marks 1 (codes "[b]x[/b]") ≡ Err RunFault.TooManyCalls }
    ensures marked_turns { length (turns_of (marked_content (codes "[b]x[/b]"))) ≡ 3 }
{}

/// States what two small bundles that agree on one plugin make of a title: the same while only that
/// plugin is active, although it registers a callback of the other plugin, and no longer once the
/// other one is active. The call itself does nothing: it carries these facts.
pub fn worked_isolation()
    ensures agree { AgreeOn (codes "borrow" ∷ []) two.one two.other }
    ensures apart { ¬ (AgreeOn (codes "bold" ∷ []) two.one two.other) }
    ensures alone { two.title two.one (codes "borrow" ∷ []) (codes "T") ≡ Ok (codes "Tb") }
    ensures alone_too { two.title two.other (codes "borrow" ∷ []) (codes "T") ≡ Ok (codes "Tb") }
    ensures both { two.title two.one (codes "borrow" ∷ codes "bold" ∷ []) (codes "T")
        ≡ Ok (codes "T1b") }
    ensures both_too { two.title two.other (codes "borrow" ∷ codes "bold" ∷ []) (codes "T")
        ≡ Ok (codes "T!b") }
{}

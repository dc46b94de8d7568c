//! The short lines, carried out by an empty site.
ghost use Rattle.std.specs.Prelude.{◌≡◌, ℕ, List, Option, true};
ghost use Rattle.std.specs.List.{AllByRecursion};
ghost use Rattle.std.specs.Str.{is_utf8};
ghost use Rattle.plain_data.specs.Texts.{Text};
ghost use Rattle.hook_meaning.specs.Meaning.{Engine};
ghost use Rattle.post_tables.specs.Rows.{Rows};
ghost use Rattle.site_export.specs.Lines.{IsHistory};
ghost use Rattle.site_program.specs.History.{rows_after};
ghost use Rattle.site_laws.specs.Stored.{AreStored};

/// A law: short lines rebuild the rows that they are printed of. If rows are such as a site may
/// have, then a new site that carries out short lines of them has the same posts, options,
/// templates and active plugins, and has given the same largest ID. The lines are in UTF-8, as a
/// program prints them.
pub fn short_lines_rebuild_the_rows()
    ensures { (engine : Engine) (calls : ℕ) (limit : Option ℕ) (rows : Rows) (lines : List Text)
        → AreStored engine.plugins rows
        → AllByRecursion (λ line. is_utf8 line ≡ true) lines
        → IsHistory rows lines
        → rows_after engine calls limit lines ≡ record rows { step_limit = limit } }
{}

/// A law: the rows of a site are such as a site may have, whatever lines a new site has carried out.
pub fn rows_are_stored()
    ensures { (engine : Engine) (calls : ℕ) (limit : Option ℕ) (lines : List Text)
        → AreStored engine.plugins (rows_after engine calls limit lines) }
{}

/// A law: a history that is shortened makes the same rows. Whatever lines a new site has carried
/// out, another new site that carries out short lines of its rows has the same rows. The short lines
/// are in UTF-8, as a program prints them.
pub fn short_lines_make_the_same_rows()
    ensures { (engine : Engine) (calls : ℕ) (limit : Option ℕ) (lines short : List Text)
        → AllByRecursion (λ line. is_utf8 line ≡ true) short
        → IsHistory (rows_after engine calls limit lines) short
        → rows_after engine calls limit short ≡ rows_after engine calls limit lines }
{}

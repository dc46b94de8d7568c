//! The short lines as commands.
ghost use Rattle.std.specs.Prelude.{◌≡◌, ◌∷◌, ℕ, List, Option, Some, None, All, codes, true};
ghost use Rattle.std.specs.Str.{is_utf8};
ghost use Rattle.plain_data.specs.Texts.{Text};
ghost use Rattle.site_commands.specs.Asked.{activate, delete, edit, option};
ghost use Rattle.site_commands.specs.Worked.{line_command};
ghost use Rattle.site_export.specs.Lines.{activate_line, delete_line, edit_line, option_line};
ghost use Rattle.site_laws.specs.Stored.{IsId, IsOptionName};

/// A law: each short line, printed from what a site may store, is the command that it says. A
/// program prints its lines in UTF-8, as texts are.
pub fn short_lines_are_commands()
    ensures activate { (plugin : Text) → is_utf8 (activate_line plugin) ≡ true
        → line_command (activate_line plugin) ≡ Some (activate plugin) }
    ensures option { (name value : Text) → IsOptionName name
        → is_utf8 (option_line (name, value)) ≡ true
        → line_command (option_line (name, value)) ≡ Some (option name value) }
    ensures delete { (id : ℕ) → IsId id → is_utf8 (delete_line id) ≡ true
        → line_command (delete_line id) ≡ Some (delete id) }
    ensures title { (id : ℕ) (text : Text) → IsId id
        → is_utf8 (edit_line id (codes "title") text) ≡ true
        → line_command (edit_line id (codes "title") text)
        ≡ Some (edit id None (Some text) None None) }
    ensures content { (id : ℕ) (text : Text) → IsId id
        → is_utf8 (edit_line id (codes "content") text) ≡ true
        → line_command (edit_line id (codes "content") text)
        ≡ Some (edit id None None (Some text) None) }
{}

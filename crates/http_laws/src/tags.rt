//! What equal tags mean. A law is a function without a body.
ghost use Rattle.std.specs.Prelude.{◌≡◌, ◌+◌, ◌≤◌, ℕ, List, [], Some, length, true};
ghost use Rattle.std.specs.Str.{is_utf8};
ghost use Rattle.hook_meaning.specs.Meaning.{Engine};
ghost use Rattle.plain_data.specs.Texts.{Text};
ghost use Rattle.site_commands.specs.Asked.{get};
ghost use Rattle.site_commands.specs.Worked.{line_command};
ghost use Rattle.site_http.specs.Pages.{Follows, most_edits, page_line};
ghost use Rattle.site_http.specs.declared.site_pages.SitePages.{SitePages as PagesOf};
ghost use Rattle.site_program.specs.History.{Serves, history};
ghost use Rattle.site_program.specs.State.{State};
ghost use Rattle.site_program.specs.Step.{IsReply, step};
ghost use Rattle.site_replies.specs.Reply.{ReplyData};
ghost use Rattle.site_serving.specs.Served.{IsCarriedOut, Replied, history_of};

use byte_io::Journal;
use page_trace::Watch;
use site_serving::Commands;

/// A law: the line that HTTP makes of a request for a page is the command `get` of the path. A
/// program prints its lines in UTF-8, as paths are.
pub fn page_lines_ask_for_pages()
    ensures { (path : Text) → is_utf8 (page_line path) ≡ true
        → line_command (page_line path) ≡ Some (get path) }
{}

/// A law: if a site's tag after some lines is the one before them, no edit was done by any of them. A
/// tag has room for 2^64 - 1 edits.
pub fn no_edit_between_equal_tags<C: Commands, J: Journal, V: Watch>()
    ensures { (replied : List Replied) (old new : PagesOf C J V)
        → Follows C.Commands replied old new
        → new.tag ≡ old.tag
        → old.tag.edits + length (history_of C.keeps replied) ≤ most_edits
        → history_of C.keeps replied ≡ [] }
{}

/// A law: two requests for one path get the same page, byte by byte, if no edit was done between
/// them, whatever else was asked; so what a client has under a tag is what it would be sent.
pub fn one_tag_one_page()
    ensures { (engine : Engine) (calls : ℕ) (one mid two after : State) (path : Text)
        (first second : ReplyData) (between : List Replied)
        → IsReply (step engine calls) one (page_line path) first mid
        → Serves (step engine calls) mid between two
        → IsReply (step engine calls) two (page_line path) second after
        → history between ≡ []
        → is_utf8 (page_line path) ≡ true
        → IsCarriedOut first
        → IsCarriedOut second
        → second ≡ first }
{}

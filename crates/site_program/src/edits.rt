//! Which lines the history has, and which change nothing.
ghost use Rattle.std.specs.Prelude.{◌≡◌, Some};
ghost use Rattle.site_commands.specs.Asked.{asked_by};
ghost use Rattle.site_replies.specs.Reply.{reply_data};
ghost use Rattle.site_edits.specs.Late.{is_done};
ghost use Rattle.site_program.specs.Step.{is_edit, is_look};

use site_commands::Command;
use site_replies::SiteReply;

/// Returns whether a command may change rows.
pub(crate) fn is_edit(command: Command<'_>) -> bool
    ensures { result ≡ is_edit (Some (asked_by command.entry)) }
{
    match command {
        Command::Get { .. } | Command::Begin { .. } | Command::Turns { .. } => false,
        _ => true,
    }
}

/// Returns whether a command changes nothing, whatever comes of it.
pub(crate) fn is_look(command: Command<'_>) -> bool
    ensures { result ≡ is_look (Some (asked_by command.entry)) }
{
    matches!(command, Command::Get { .. })
}

/// Returns whether a reply is the `ok` of an edit.
pub(crate) fn is_done(reply: &SiteReply) -> bool
    ensures { result ≡ is_done (reply_data reply.now) }
{
    matches!(reply, SiteReply::Ok | SiteReply::OkId(_))
}

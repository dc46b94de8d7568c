//! Reading commands from lines.
ghost use Rattle.std.specs.Prelude.{◌≡◌, IfOk, option_map};
ghost use Rattle.site_commands.specs.Asked.{asked_by};
ghost use Rattle.site_commands.specs.Worked.{line_command};

use crate::command::{Command, read_command};
use crate::get_line::read_get_line;
use crate::line::read_line;
use json::Scratch;
use serde_json::Value;
use std::alloc::{AllocError, Global};

/// Reads commands from lines, one after another. It keeps the room that reading takes, from 16 to
/// 80 KB, and what the last command borrows from. No contract speaks of either.
#[derive(Drop)]
pub struct CommandReader {
    scratch: Box<Scratch>,
    // The path of the last line, if it was read without its tree.
    path: String,
    // The tree of the last line, if it was read.
    tree: Option<Value>,
}

impl CommandReader {
    /// Makes a reader.
    pub fn new(alloc: Global) -> Result<Self, AllocError> {
        Ok(CommandReader {
            scratch: Box::new(alloc, Scratch::new(alloc))?,
            path: String::new(alloc),
            tree: None,
        })
    }

    /// Reads the command that a line is, given without its newline, or returns `None` if it isn't
    /// one: it isn't a JSON text in UTF-8 (RFC 8259), or its tree isn't a command (see
    /// [`read_command`]). It fails only if memory runs out.
    pub fn read(&mut self, alloc: Global, line: &[u8]) -> Result<Option<Command<'_>>, AllocError>
        ensures { IfOk result (λ command. option_map asked_by command ≡ line_command line.now) }
    {
        // The tree of the line before is given back first.
        self.tree = None;
        if let Some(path) = read_get_line(line, &mut self.scratch)? {
            self.path.clear();
            self.path.push_str(path)?;
            return Ok(Some(Command::Get {
                path: self.path.as_str(),
            }));
        }
        self.tree = read_line(alloc, line)?;
        Ok(self.tree.as_ref().and_then(read_command))
    }
}

//! The options, as `clap` knows them.
ghost use Rattle.std.specs.Prelude.{◌≡◌, IfOk, false, map};
ghost use Rattle.clap.specs.Words.{app_of, rule_of};
ghost use Rattle.site_args.specs.CommandLine.{bare_app, rule_of_row, site_app, with_rules};

use clap::{Arg, ArgAction, Command, value_parser};
use std::alloc::{AllocError, Global};

/// What an option is given.
#[derive(Clone, Copy)]
pub(crate) enum Given {
    /// A number from 1 to this one.
    Number(u32),
    /// The path of a file.
    File,
    /// Nothing: it is there or not.
    Nothing,
}

/// An option, as it is read and as the help shows it.
pub(crate) struct OptionRow {
    name: &'static str,
    given: Given,
    help: &'static str,
}

const OPTIONS: [OptionRow; 13] = [
    OptionRow {
        name: "calls",
        given: Given::Number(100_000),
        help: "How many callbacks a page may call, 1 to 100000 [default: 10000]",
    },
    OptionRow {
        name: "cache",
        given: Given::Number(4_096),
        help: "How many texts are kept with their shortcodes found, 1 to 4096 [default: 64]",
    },
    OptionRow {
        name: "snippets",
        given: Given::Nothing,
        help: "Adds the plugin snippets: shortcodes, filters and actions that are options",
    },
    OptionRow {
        name: "trace",
        given: Given::Nothing,
        help: "Writes a line of JSON on standard error for each callback that is called",
    },
    OptionRow {
        name: "database",
        given: Given::File,
        help: "Keeps the site in this SQLite database, which is made if it is not there",
    },
    OptionRow {
        name: "must-exist",
        given: Given::Nothing,
        help: "Refuses a database that is not there or is empty, in place of making one",
    },
    OptionRow {
        name: "without-wal",
        given: Given::Nothing,
        help: "Takes a database that has no FILE-wal beside it, which is else refused",
    },
    OptionRow {
        name: "export",
        given: Given::Nothing,
        help: "Writes lines that rebuild the site of the database, and serves nothing",
    },
    OptionRow {
        name: "compact",
        given: Given::Nothing,
        help: "Puts such lines in the place of the database's history, and serves nothing",
    },
    OptionRow {
        name: "check",
        given: Given::Nothing,
        help: "Says how many edits the database has and their digest, and serves nothing",
    },
    OptionRow {
        name: "http",
        given: Given::Nothing,
        help: "Serves one client of HTTP/1.1 on standard input and output, in place of lines",
    },
    OptionRow {
        name: "framed",
        given: Given::Nothing,
        help: "With --http, serves many clients, on one stream of frames",
    },
    OptionRow {
        name: "token-file",
        given: Given::File,
        help: "Takes edits over HTTP from whoever sends the token in this file",
    },
];

/// Makes the option of a row.
fn option_of<'a>(alloc: Global, row: &OptionRow) -> Arg<'a>
    ensures rule { rule_of result ≡ rule_of_row row.now }
    ensures local { result.global ≡ false }
{
    let option = Arg::new(alloc, row.name).long(row.name).help(row.help);
    match row.given {
        Given::Number(most) => option
            .value_name("N")
            .action(ArgAction::Set)
            .value_parser(value_parser!(u32).range(1..=i64::from(most))),
        Given::File => option.value_name("FILE").action(ArgAction::Set),
        Given::Nothing => option.action(ArgAction::SetTrue),
    }
}

/// Makes a command line with no options, for arguments that begin after the program's name.
fn bare_command<'a>(alloc: Global) -> Command<'a>
    ensures { app_of result ≡ bare_app }
{
    Command::new(alloc, "site")
        .about(
            "Serves a site: one command a line on standard input, one reply each on standard output",
        )
        .no_binary_name(true)
}

/// Adds the options of rows to a command line.
fn with_options<'a>(
    alloc: Global,
    command: Command<'a>,
    rows: &[OptionRow],
) -> Result<Command<'a>, AllocError>
    ensures { IfOk result (λ more. app_of more
        ≡ with_rules (app_of command.entry) (map rule_of_row rows.now)) }
{
    let mut command = command;
    for row in rows {
        command = command.arg(option_of(alloc, row))?;
    }
    Ok(command)
}

/// Makes the whole command line, for arguments that begin after the program's name.
pub(crate) fn site_command<'a>(alloc: Global) -> Result<Command<'a>, AllocError>
    ensures { IfOk result (λ command. app_of command ≡ site_app) }
{
    with_options(alloc, bare_command(alloc), &OPTIONS)
}

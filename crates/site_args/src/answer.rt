//! What the command-line arguments ask for.
ghost use Rattle.std.specs.Prelude.{◌≡◌, ◌≤◌, IfOk, map, option_map, string_bytes};
ghost use Rattle.clap.specs.Words.{FailsBy, HasKind, Kinds, found_of, rows_of};
ghost use Rattle.site_args.specs.CommandLine.{
  calls_of,
  cache_of,
  database_of,
  flags_in,
  flags_of,
  has_flag,
  reasons,
  token_file_of,
};
ghost use Rattle.site_args.specs.Answers.{AsksFor, HasRanges, HasNumbers, IsOutcome, IsReadFrom};
ghost use Rattle.site_args.specs.Answers.{IsBad, IsRefusal, suits};

use crate::options::site_command;
use clap::error::ErrorKind;
use clap::{ArgMatches, Error};
use std::alloc::{AllocError, Global};

/// The options that are given nothing: whether each is there.
#[derive(Clone, Copy)]
pub struct Flags {
    /// Whether the plugin `snippets` is beside the bundle.
    pub snippets: bool,
    /// Whether each invocation is told on standard error.
    pub trace: bool,
    /// Whether the file has to be there already.
    pub must_exist: bool,
    /// Whether the file is taken without SQLite's log beside it.
    pub without_wal: bool,
    /// Whether the short history is printed.
    pub export: bool,
    /// Whether it is put in the place of the history.
    pub compact: bool,
    /// Whether the history is only read.
    pub check: bool,
    /// Whether what is served is served over HTTP.
    pub http: bool,
    /// Whether that is to many clients, on one stream of frames.
    pub framed: bool,
}

/// What the program is to do.
#[derive(Drop)]
pub enum Task {
    /// Serve a site that ends with the program.
    Serve,
    /// Serve the site of this database file.
    ServeFile(String),
    /// Print the short history of the site of this database file.
    Export(String),
    /// Put it in the place of the history in this database file.
    Compact(String),
    /// Say how many edits this database file has, and their digest.
    Check(String),
}

/// What the command-line arguments ask for.
#[derive(Drop)]
pub enum ArgsAnswer {
    /// Do this.
    Run {
        /// How many callbacks each page may call: 1 to 100,000, and 10,000 if no argument says
        /// otherwise.
        calls: u32,
        /// How many texts keep their pieces: 1 to 4,096, and 64 if no argument says otherwise.
        cache: u32,
        /// Which options are there.
        flags: Flags,
        /// The file with the token that edits over HTTP need, if there is one.
        token_file: Option<String>,
        /// What is done, and with which file.
        task: Task,
    },
    /// Show this help, and serve nothing.
    Help(String),
    /// The arguments are not those of the program; the text says which one and why.
    Bad(String),
    /// Memory for the arguments or for the text ran out.
    OutOfMemory,
}

// What is said of options that don't go together.
const APART: &str =
    "error: '--must-exist', '--without-wal', '--export', '--compact' and '--check' each need \
    '--database <FILE>', and the last three exclude one another\n\n\
    For more information, try '--help'.\n";

// What is said of options for HTTP that don't suit what is asked for.
const UNSUITED: &str =
    "error: '--framed' and '--token-file <FILE>' need '--http', and '--http' excludes '--export', \
    '--compact' and '--check'\n\n\
    For more information, try '--help'.\n";

/// What is read of the options, before it is known whether they go together.
struct Options {
    calls: u32,
    cache: u32,
    flags: Flags,
    database: Option<String>,
    token_file: Option<String>,
}

/// Parses the command-line arguments, which `--help` lists. An option given twice, a number out of
/// its range, any other argument, one of `--must-exist`, `--without-wal`, `--export`, `--compact` and
/// `--check` without a database, two of the last three, one of them with `--http`, and `--framed` or
/// `--token-file` without it are [`ArgsAnswer::Bad`]. The last clause says in clap's terms which
/// answer it is.
pub fn read_args(alloc: Global, words: &[String]) -> ArgsAnswer
    ensures ranges { HasRanges result }
    ensures numbers { HasNumbers (map string_bytes words.now) result }
    ensures outcome { IsOutcome (map string_bytes words.now) result }
{
    match read_options(alloc, words) {
        Ok(options) => answer(alloc, options),
        Err(error) => refusal(alloc, &error),
    }
}

/// Returns the answer for what was read.
fn answer(alloc: Global, options: Options) -> ArgsAnswer
    requires calls { (1 ≤ options.calls) × (options.calls ≤ 100000) }
    requires cache { (1 ≤ options.cache) × (options.cache ≤ 4096) }
    ensures ranges { HasRanges result }
    ensures read { IsReadFrom options result }
{
    let Options {
        calls,
        cache,
        flags,
        database,
        token_file,
    } = options;
    match task_for(database, flags) {
        Some(task) if suits(flags, token_file.is_none(), &task) => ArgsAnswer::Run {
            calls,
            cache,
            flags,
            token_file,
            task,
        },
        Some(_) => bad(alloc, UNSUITED),
        None => bad(alloc, APART),
    }
}

/// Returns the answer that says why arguments are refused.
fn bad(alloc: Global, why: &str) -> ArgsAnswer
    ensures { IsBad result }
{
    match String::from_str(alloc, why) {
        Ok(text) => ArgsAnswer::Bad(text),
        Err(AllocError) => ArgsAnswer::OutOfMemory,
    }
}

/// Returns whether a task suits the options for HTTP.
fn suits(flags: Flags, no_token: bool, task: &Task) -> bool
    ensures { result ≡ suits flags.http flags.framed no_token task.now }
{
    match task {
        _ if !flags.http => no_token && !flags.framed,
        Task::Serve | Task::ServeFile(_) => true,
        Task::Export(_) | Task::Compact(_) | Task::Check(_) => false,
    }
}

/// Returns what the options on a database ask for, or `None` if they don't go together.
fn task_for(database: Option<String>, flags: Flags) -> Option<Task>
    ensures { AsksFor (option_map string_bytes database) flags.must_exist flags.without_wal
        flags.export flags.compact flags.check result }
{
    let Flags {
        must_exist,
        without_wal,
        export,
        compact,
        check,
        ..
    } = flags;
    match database {
        None if must_exist || without_wal || export || compact || check => None,
        None => Some(Task::Serve),
        Some(_) if (export && compact) || (export && check) || (compact && check) => None,
        Some(path) if export => Some(Task::Export(path)),
        Some(path) if compact => Some(Task::Compact(path)),
        Some(path) if check => Some(Task::Check(path)),
        Some(path) => Some(Task::ServeFile(path)),
    }
}

/// Returns what the options say, or clap's error.
fn read_options(alloc: Global, words: &[String]) -> Result<Options, Error>
    ensures calls { IfOk result (λ o.
        (1 ≤ o.calls) × (o.calls ≤ 100000) × (o.calls ≡ calls_of (map string_bytes words.now))) }
    ensures cache { IfOk result (λ o.
        (1 ≤ o.cache) × (o.cache ≤ 4096) × (o.cache ≡ cache_of (map string_bytes words.now))) }
    ensures flags { IfOk result (λ o. o.flags ≡ flags_of (map string_bytes words.now)) }
    ensures database { IfOk result (λ o. option_map string_bytes o.database
        ≡ database_of (map string_bytes words.now)) }
    ensures token_file { IfOk result (λ o. option_map string_bytes o.token_file
        ≡ token_file_of (map string_bytes words.now)) }
    ensures kinds { FailsBy (reasons (map string_bytes words.now)) result }
{
    let command = site_command(alloc)?;
    let matches = command.try_get_matches_from(words)?;
    let calls = matches.get_one::<u32>("calls").unwrap_or(10_000);
    let cache = matches.get_one::<u32>("cache").unwrap_or(64);
    let flags = flags_in(&matches);
    let database = copy_of(alloc, matches.get_str("database"))?;
    let token_file = copy_of(alloc, matches.get_str("token-file"))?;
    Ok(Options {
        calls,
        cache,
        flags,
        database,
        token_file,
    })
}

/// Copies the text of an option, if it is given.
fn copy_of(alloc: Global, text: Option<&str>) -> Result<Option<String>, AllocError>
    ensures { IfOk result (λ copy. option_map string_bytes copy
        ≡ option_map (λ text. text.now) text.entry) }
{
    match text {
        Some(text) => Ok(Some(String::from_str(alloc, text)?)),
        None => Ok(None),
    }
}

/// Returns which flags clap found.
fn flags_in(matches: &ArgMatches<'_>) -> Flags
    ensures { result ≡ flags_in (rows_of (found_of matches.now)) }
{
    Flags {
        snippets: has_flag(matches, "snippets"),
        trace: has_flag(matches, "trace"),
        must_exist: has_flag(matches, "must-exist"),
        without_wal: has_flag(matches, "without-wal"),
        export: has_flag(matches, "export"),
        compact: has_flag(matches, "compact"),
        check: has_flag(matches, "check"),
        http: has_flag(matches, "http"),
        framed: has_flag(matches, "framed"),
    }
}

/// Returns whether clap found a flag: it has the text `true` for one that is given, and else
/// `false`.
fn has_flag(matches: &ArgMatches<'_>, name: &str) -> bool
    ensures { result ≡ has_flag (rows_of (found_of matches.now)) name.now }
{
    match matches.get_str(name) {
        Some(text) => text == "true",
        None => false,
    }
}

/// Returns the answer for an error of clap's. If memory for its text runs out, that is
/// `OutOfMemory`.
fn refusal(alloc: Global, error: &Error) -> ArgsAnswer
    ensures { (kinds : Kinds) → HasKind kinds error.now → IsRefusal kinds result }
{
    let kind = error.kind();
    if kind == ErrorKind::OutOfMemory {
        return ArgsAnswer::OutOfMemory;
    }
    match error.to_string(alloc) {
        Ok(text) if kind == ErrorKind::DisplayHelp => ArgsAnswer::Help(text),
        Ok(text) => ArgsAnswer::Bad(text),
        Err(_) => ArgsAnswer::OutOfMemory,
    }
}

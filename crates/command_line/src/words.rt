//! What the program is asked to do.

use crate::script_help::SCRIPT_HELP;
use clap::error::ErrorKind;
use clap::{Arg, ArgAction, ArgMatches, Command, Error, value_parser};
use std::alloc::{AllocError, Global};
use std::convert::AsStr;

/// What `--version` says after the program's name.
const VERSION: &str = "0.9.0";

/// What `create` does, below its help.
const CREATED: &str = "\
A file that isn't there is made; one that is there has to be empty. A file that isn't empty is left as it is, and the
program ends with status 1 and the line 'vault exists'.
Example:
  vaultd create vault.a vault.b";

/// What `inspect` prints, below its help.
const INSPECTED: &str = "\
The files are only read. Stop their server first, or copy both files and inspect the copy: what is read while a server
writes may be of no one moment, and 'vault in use' is said on standard error then. No server starts while they are read.
A line for each file says whether it is closed, open, older than the other or damaged at an
offset; then come the vault's counts and a line for each standing claim, or 'no vault'.
Example:
  vaultd inspect vault.a vault.b
prints for a new vault:
  file a: open, generation 1, frames 0, tail 34
  file b: closed
  places 1, versions 0, claims 0, drafts 0";

/// What `check` says, below its help.
const CHECKED: &str = "\
It reads both files as a server does before it starts, and changes neither. It says what each file is, whether a server starts
over them, and how full the vault is: of each limit what is used, and how much that is of a hundred.
Status 0: a server starts. Status 1: none does; the reason, the file, the offset and what to do are said.
It locks nothing, so a server may run, and none is kept from starting. It reads until two readings agree; where they never
do, it says 'vault in use'.
Examples:
  vaultd check vault.a vault.b
  vaultd check --json vault.a vault.b";

/// What a client sends and gets, below the help of `serve`.
const SERVED: &str = "\
Prints 'listening' once it accepts connections, and runs until it is stopped: by any signal, at any time. What a client
was told is on disk then. Where a file fails, 'device fault' is said at once on standard error, and each command is
answered 'ERR 82' from then on. A client sends lines as those of a script without '@K ', and is told one line for each.
There are no passwords: the name in 'hello' is believed, so bind an address that only trusted people reach.
Example:
  vaultd create vault.a vault.b
  vaultd serve vault.a vault.b 127.0.0.1:7070 --workers 16 &
  printf 'hello anna\\nmake /engine\\nquit\\n' | nc 127.0.0.1 7070
prints
  OK session 1
  OK place 1
  OK left";

/// An example, below the help of the program.
const EXAMPLE: &str = "\
Example:
  printf '@1 hello anna\\n@1 make /engine\\n@1 checkout w:/engine\\n' | vaultd script
'vaultd script --help' lists what a script may say.";

/// What is served, where, and how.
#[derive(Clone, Copy)]
pub struct Serving<'a> {
    /// The paths of the vault's files.
    pub first: &'a str,
    pub second: &'a str,
    /// The address to bind.
    pub address: &'a str,
    /// How many connections are served at a time: 1 to 64.
    pub workers: u32,
    /// How many threads serve them: 1 or 2.
    pub threads: u32,
    /// After how many connections the program ends.
    pub connections: Option<u32>,
    /// After how many seconds a connection is ended if it sent no line, or took no reply.
    pub idle: Option<u32>,
    /// After how many seconds one is ended if it has no session.
    pub hello: u32,
    /// After how many seconds one is ended if its line has begun and isn't whole.
    pub line: u32,
    /// After how many seconds one that waits for a place is turned away.
    pub full: u32,
    /// How many connections there may be at once from one address.
    pub per_address: Option<u32>,
    /// After how many seconds a 'wait' is answered at the latest.
    pub wait: u32,
    /// How many connections may wait at once for a claim. If it isn't given: three quarters of the workers.
    pub waits: Option<u32>,
}

/// What the program is asked to do.
#[derive(Clone, Copy)]
pub enum Task<'a> {
    Script,
    /// Makes a vault in the files of these paths.
    Create(&'a str, &'a str),
    /// Reports on the files of these paths.
    Inspect(&'a str, &'a str),
    /// Checks the files of these paths, and prints the result as JSON if the flag is set, else in sentences.
    Check(&'a str, &'a str, bool),
    /// Serves a vault.
    Serve(Serving<'a>),
}

/// What the program is asked to do, and how much to say of it.
#[derive(Clone, Copy)]
pub struct Asked<'a> {
    pub task: Task<'a>,
    /// Whether standard error gets more than what failed.
    pub verbose: bool,
}

/// A required argument.
fn needed<'a>(alloc: Global, id: &'a str, help: &'a str) -> Arg<'a> {
    Arg::new(alloc, id).required(true).help(help)
}

/// An option that takes a value.
fn option<'a>(alloc: Global, name: &'a str, value: &'a str, help: &'a str) -> Arg<'a> {
    Arg::new(alloc, name)
        .long(name)
        .value_name(value)
        .help(help)
}

/// The flag that asks to say more.
fn verbose<'a>(alloc: Global, help: &'a str) -> Arg<'a> {
    Arg::new(alloc, "verbose")
        .long("verbose")
        .action(ArgAction::SetTrue)
        .help(help)
}

/// Adds an argument, if there was memory for what came before. A `?` stands here alone, and not behind each argument of `serve`, where it
/// would be costly to prove.
fn and<'a>(
    command: Result<Command<'a>, AllocError>,
    arg: Arg<'a>,
) -> Result<Command<'a>, AllocError> {
    command?.arg(arg)
}

/// A subcommand over two files.
fn over_files<'a>(
    alloc: Global,
    name: &'a str,
    about: &'a str,
    more: &'a str,
) -> Result<Command<'a>, AllocError> {
    let command = Command::new(alloc, name).about(about).after_help(more);
    let first = "The path of the vault's first file";
    let second = "The path of the vault's second file, another one";
    let command = command.arg(needed(alloc, "A", first));
    and(command, needed(alloc, "B", second))
}

/// The flag that asks what the system said of a fault.
fn says_why<'a>(alloc: Global) -> Arg<'a> {
    let help = "Says behind a fault of what it is, what was done and what the system said";
    verbose(alloc, help)
}

/// The subcommand that runs a script.
fn script<'a>(alloc: Global) -> Result<Command<'a>, AllocError> {
    Command::new(alloc, "script")
        .about("Runs a script from standard input over a new vault, replies to standard output")
        .after_help(SCRIPT_HELP)
        .arg(says_why(alloc))
}

/// The subcommand that makes a vault.
fn create<'a>(alloc: Global) -> Result<Command<'a>, AllocError> {
    let about =
        "Makes two files where they are missing and a new vault in them, and prints 'created'";
    and(over_files(alloc, "create", about, CREATED), says_why(alloc))
}

/// The subcommand that reports.
fn inspect<'a>(alloc: Global) -> Result<Command<'a>, AllocError> {
    let about = "Prints a report on the two files of a vault, and changes neither";
    and(
        over_files(alloc, "inspect", about, INSPECTED),
        says_why(alloc),
    )
}

/// The flag that asks for a report as a program reads it.
fn json<'a>(alloc: Global) -> Arg<'a> {
    Arg::new(alloc, "json")
        .long("json")
        .action(ArgAction::SetTrue)
        .help("Prints one object of JSON in the place of sentences")
}

/// The subcommand that checks.
fn check<'a>(alloc: Global) -> Result<Command<'a>, AllocError> {
    let about = "Says whether a server starts over the two files of a vault, and how full it is";
    let command = and(over_files(alloc, "check", about, CHECKED), json(alloc));
    and(command, says_why(alloc))
}

/// How many connections are served at a time.
fn workers<'a>(alloc: Global) -> Arg<'a> {
    let help = "How many connections are served at a time, 1 to 64";
    option(alloc, "workers", "N", help)
        .default_value("4")
        .value_parser(value_parser!(u32).range(1..=64))
}

/// By how many threads they are served.
fn threads<'a>(alloc: Global) -> Arg<'a> {
    let help = "By how many threads they are served, 1 or 2";
    option(alloc, "threads", "N", help)
        .default_value("1")
        .value_parser(value_parser!(u32).range(1..=2))
}

/// After how many connections the server ends.
fn connections<'a>(alloc: Global) -> Arg<'a> {
    let help = "Ends after so many connections; without it the program serves on";
    option(alloc, "connections", "M", help).value_parser(value_parser!(u32).range(1..))
}

/// After how long a silent connection is ended.
fn idle<'a>(alloc: Global) -> Arg<'a> {
    let help = "Ends a connection that sends no line for so long; without it, it may be silent";
    option(alloc, "idle", "SECONDS", help).value_parser(value_parser!(u32).range(1..))
}

/// A time that is a minute if it isn't given.
fn time<'a>(alloc: Global, name: &'a str, help: &'a str) -> Arg<'a> {
    option(alloc, name, "SECONDS", help)
        .default_value("60")
        .value_parser(value_parser!(u32).range(1..))
}

/// How long a 'wait' is kept.
fn wait<'a>(alloc: Global) -> Arg<'a> {
    let help = "Answers 'wait' after so long where its claim is queued still";
    option(alloc, "wait", "SECONDS", help)
        .default_value("30")
        .value_parser(value_parser!(u32).range(1..))
}

/// How many may wait.
fn waits<'a>(alloc: Global) -> Arg<'a> {
    let help = "How many may wait at once, others are answered as by 'state'; 3/4 of the workers";
    option(alloc, "waits", "N", help).value_parser(value_parser!(u32).range(0..=64))
}

/// How many connections there may be at once from one address.
fn per_address<'a>(alloc: Global) -> Arg<'a> {
    let help =
        "Turns further connections of one address away, but for 127.0.0.1 and ::1; without it, none";
    option(alloc, "per-address", "N", help).value_parser(value_parser!(u32).range(1..))
}

/// The subcommand that serves.
fn serve<'a>(alloc: Global) -> Result<Command<'a>, AllocError> {
    let about = "Serves the vault in two files over TCP";
    let command = over_files(alloc, "serve", about, SERVED);
    let address = "Where to listen, as 127.0.0.1:7070";
    let command = and(command, needed(alloc, "ADDR", address));
    let command = and(command, workers(alloc));
    let command = and(command, threads(alloc));
    let command = and(command, connections(alloc));
    let command = and(command, idle(alloc));
    let hello = "Ends a connection that has no session after so long";
    let command = and(command, time(alloc, "hello", hello));
    let line = "Ends a connection whose line has begun so long ago, and isn't whole";
    let command = and(command, time(alloc, "line", line));
    let full = "Answers 'ERR 80' to who has waited so long for a place";
    let command = and(command, time(alloc, "full", full));
    let command = and(command, per_address(alloc));
    let command = and(command, wait(alloc));
    let command = and(command, waits(alloc));
    let help =
        "Says on standard error what is served where, and behind a fault what the system said";
    and(command, verbose(alloc, help))
}

/// Adds a subcommand, if there was memory for it and for what came before.
fn with<'a>(
    command: Result<Command<'a>, AllocError>,
    more: Result<Command<'a>, AllocError>,
) -> Result<Command<'a>, AllocError> {
    command?.subcommand(more?)
}

/// The command line.
fn command_line<'a>(alloc: Global) -> Result<Command<'a>, AllocError> {
    let command = Command::new(alloc, "vaultd")
        .version(VERSION)
        .about("The server of an engineering design library")
        .after_help(EXAMPLE)
        .subcommand_required(true)
        .arg_required_else_help(true);
    let command = with(Ok(command), script(alloc));
    let command = with(command, create(alloc));
    let command = with(command, check(alloc));
    let command = with(command, inspect(alloc));
    with(command, serve(alloc))
}

/// A word that the command line is known to have.
fn path<'a>(matches: &ArgMatches<'a>, id: &str) -> &'a str {
    matches.get_str(id).unwrap_or("")
}

/// How `serve` is asked to serve.
fn serving_of<'a>(matches: &ArgMatches<'a>) -> Serving<'a> {
    Serving {
        first: path(matches, "A"),
        second: path(matches, "B"),
        address: path(matches, "ADDR"),
        workers: matches.get_one::<u32>("workers").unwrap_or(4),
        threads: matches.get_one::<u32>("threads").unwrap_or(1),
        connections: matches.get_one::<u32>("connections"),
        idle: matches.get_one::<u32>("idle"),
        hello: matches.get_one::<u32>("hello").unwrap_or(60),
        line: matches.get_one::<u32>("line").unwrap_or(60),
        full: matches.get_one::<u32>("full").unwrap_or(60),
        per_address: matches.get_one::<u32>("per-address"),
        wait: matches.get_one::<u32>("wait").unwrap_or(30),
        waits: matches.get_one::<u32>("waits"),
    }
}

/// Whether to say more of the subcommand that was matched.
fn is_verbose(matches: &ArgMatches<'_>) -> bool {
    matches
        .subcommand()
        .is_some_and(|(_, words)| words.get_flag("verbose"))
}

/// The task of the subcommand that was matched, if it is one of ours.
fn task_in<'a>(matches: &ArgMatches<'a>) -> Option<Task<'a>> {
    match matches.subcommand() {
        Some(("script", _)) => Some(Task::Script),
        Some(("create", files)) => Some(Task::Create(path(files, "A"), path(files, "B"))),
        Some(("check", words)) => Some(Task::Check(
            path(words, "A"),
            path(words, "B"),
            words.get_flag("json"),
        )),
        Some(("inspect", files)) => Some(Task::Inspect(path(files, "A"), path(files, "B"))),
        Some(("serve", words)) => Some(Task::Serve(serving_of(words))),
        Some(_) | None => None,
    }
}

/// The error of a command line without a subcommand.
fn lacks_subcommand(alloc: Global) -> Result<Error, AllocError> {
    let mut command = command_line(alloc)?;
    let error = command.error(ErrorKind::MissingSubcommand, "a subcommand is needed");
    drop(command);
    error
}

/// What the words ask for, the program's own name first. The error is what clap says of them, or the help that they ask for.
pub fn asked_of<'a, S: AsStr>(alloc: Global, words: &'a [S]) -> Result<Asked<'a>, Error> {
    let matches = command_line(alloc)?.try_get_matches_from(words)?;
    let (task, verbose) = (task_in(&matches), is_verbose(&matches));
    drop(matches);
    match task {
        Some(task) => Ok(Asked { task, verbose }),
        None => Err(lacks_subcommand(alloc)?),
    }
}

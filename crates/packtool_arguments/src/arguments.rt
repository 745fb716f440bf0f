//! The command line.

ghost use Rattle.std.specs.Prelude.{◌≡◌, Bool, IfSome, IsTrue, None, Some, bytes_eq, codes, map, option_map};
ghost use Rattle.clap.specs.Matches.{first_value, found_of, matched_of, raw_values, subcommand_name_of};
ghost use Rattle.gix_hash.specs.declared.Kind.{Kind};
ghost use Rattle.packtool_arguments.specs.Arguments.{IsAbout, IsGiven, action_in, command_name};

use clap::{Arg, ArgAction, ArgMatches, Command, value_parser};
use gix_hash::Kind;
use packtool_commands::{Ask, Question, StoreRequest, Wanted};
use std::alloc::{AllocError, Global};

/// What the program is asked to do.
#[derive(Clone, Copy)]
pub enum Request<'m, 'a> {
    /// To look ids up in a store.
    Store(StoreRequest<'a>),
    /// To read files.
    Files(FileRequest<'m, 'a>),
}

/// A request to read files.
#[derive(Clone, Copy)]
pub struct FileRequest<'m, 'a> {
    /// What is done with each file.
    pub command: FileCommand,
    /// The paths of the files, in order.
    pub paths: &'m [&'a str],
    /// The kind of their ids and digests, or `None` for the one that a file has.
    pub kind: Option<Kind>,
    /// Whether a terminal shows nothing of how much was read.
    pub no_progress: bool,
}

/// A command over files.
#[derive(Clone, Copy)]
pub enum FileCommand {
    /// `show`.
    Show,
    /// `check`.
    Check,
}

// A command, over a store or over files.
#[derive(Clone, Copy)]
enum Action {
    Store(Question),
    Files(FileCommand),
}

// A row of the table of commands: a command, its name, its usage, what its help says about it, and
// its arguments.
#[derive(Clone, Copy)]
struct Row {
    action: Action,
    name: &'static str,
    usage: &'static str,
    about: &'static str,
    arguments: &'static [Argument],
    ghost named: { IsTrue (bytes_eq name.now (command_name action)) },
}

// An argument of a command.
#[derive(Clone, Copy)]
enum Argument {
    Prefix,
    Lines,
    One,
    Indexes,
    Files,
    Least,
    Objects,
    Kind,
    NoProgress,
}

const COMMANDS: [Row; 5] = [
    Row {
        action: Action::Store(Question::Find),
        name: "find",
        usage: "packtool find [--one] [--objects DIR] [--kind KIND] PREFIX\n       packtool find --stdin [--one] [--objects DIR] [--kind KIND]",
        about: "Prints each id of the store that begins with a prefix",
        arguments: &[
            Argument::Prefix,
            Argument::Lines,
            Argument::One,
            Argument::Objects,
            Argument::Kind,
        ],
    },
    Row {
        action: Action::Store(Question::Locate),
        name: "locate",
        usage: "packtool locate [--one] [--objects DIR] [--kind KIND] PREFIX\n       packtool locate --stdin [--one] [--objects DIR] [--kind KIND]",
        about: "Prints each pack and offset, or loose file, of each id that begins with a prefix",
        arguments: &[
            Argument::Prefix,
            Argument::Lines,
            Argument::One,
            Argument::Objects,
            Argument::Kind,
        ],
    },
    Row {
        action: Action::Store(Question::Abbreviate),
        name: "abbreviate",
        usage: "packtool abbreviate [--stdin] [--least N] [--objects DIR] [--kind KIND]",
        about: "Prints each id of the store after its abbreviation",
        arguments: &[
            Argument::Lines,
            Argument::Least,
            Argument::Objects,
            Argument::Kind,
        ],
    },
    Row {
        action: Action::Files(FileCommand::Show),
        name: "show",
        usage: "packtool show [--kind KIND] INDEX...",
        about: "Prints offset, id and CRC of each object of pack indexes, as git show-index does",
        arguments: &[Argument::Indexes, Argument::Kind],
    },
    Row {
        action: Action::Files(FileCommand::Check),
        name: "check",
        usage: "packtool check [--kind KIND] [--no-progress] FILE...",
        about: "Prints whether pack indexes are sound, and whether other files end with their digest",
        arguments: &[Argument::Files, Argument::Kind, Argument::NoProgress],
    },
];

// What `--version` prints after the program's name, and what begins each help.
const VERSION: &str = "0.7.0 of Nunbirdstand";

const ORIGIN: &str = "packtool 0.7.0 of Nunbirdstand";

// Printed after each help.
const AFTER: &str =
    "The exit status is 0 if something was found and each file passed its check; 1 if nothing was
found, if --one found several ids, if a prefix from --stdin was missing, ambiguous or bad, or if a
file failed; and 2 after an error, which is printed on standard error. packtool(1) has more.";

/// The command line of the program: what `--help` prints, and which arguments are read.
pub fn command<'a>(alloc: Global) -> Result<Command<'a>, AllocError> {
    let mut commands = Vec::new(alloc);
    let rows = &COMMANDS[..];
    for row in rows {
        commands.push(subcommand(alloc, row)?)?;
    }
    Command::new(alloc, "packtool")
        .before_help(ORIGIN)
        .about("Looks ids up in a Git object store, and reads pack indexes.")
        .version(VERSION)
        .propagate_version(true)
        .no_binary_name(true)
        .bin_name("packtool")?
        .subcommand_required(true)
        .after_help(AFTER)
        .subcommands(commands)
}

// A command of the program.
fn subcommand<'a>(alloc: Global, row: &Row) -> Result<Command<'a>, AllocError> {
    let mut arguments = Vec::new(alloc);
    for argument in row.arguments {
        arguments.push(arg_of(alloc, *argument)?)?;
    }
    Command::new(alloc, row.name)
        .display_name("packtool")?
        .override_usage(row.usage)
        .about(row.about)
        .after_help(AFTER)
        .args(arguments)
}

// An argument of a command.
fn arg_of<'a>(alloc: Global, argument: Argument) -> Result<Arg<'a>, AllocError> {
    let arg = match argument {
        Argument::Prefix => Arg::new(alloc, "prefix")
            .value_name("PREFIX")
            .required_unless_present("stdin")?
            .conflicts_with("stdin")?,
        Argument::Lines => flag(alloc, "stdin"),
        Argument::One => flag(alloc, "one"),
        Argument::Indexes => files(alloc, "INDEX"),
        Argument::Files => files(alloc, "FILE"),
        Argument::Least => option(alloc, "least", "N")
            .visible_alias("abbrev")?
            .value_parser(value_parser!(u8).range(4..=64))
            .default_value("4"),
        Argument::Objects => option(alloc, "objects", "DIR"),
        Argument::Kind => option(alloc, "kind", "KIND")
            .visible_alias("object-format")?
            .value_parser(["sha1", "sha256"].as_slice()),
        Argument::NoProgress => flag(alloc, "no-progress"),
    };
    Ok(arg.help(help_of(argument)))
}

// What the help says of an argument.
fn help_of(argument: Argument) -> &'static str {
    match argument {
        Argument::Prefix => "2 hex digits or more",
        Argument::Lines =>
            "Reads a prefix from each line of standard input; a line without a result is printed before missing, ambiguous or bad",
        Argument::One => "Prints only the one id of a prefix, or its locations",
        Argument::Indexes => "A pack index of version 2; - is standard input",
        Argument::Files =>
            "A pack, pack index, multi-pack-index or commit-graph; - is standard input",
        Argument::Least => "The fewest digits of an abbreviation",
        Argument::Objects =>
            "The object directory [default: the repository's, by $GIT_OBJECT_DIRECTORY, $GIT_DIR or from here upwards]",
        Argument::Kind => "The kind of ids [default: what the repository or the file has]",
        Argument::NoProgress => "Shows nothing on a terminal while a file is read",
    }
}

// An option without a value.
fn flag<'a>(alloc: Global, name: &'a str) -> Arg<'a> {
    Arg::new(alloc, name).long(name).action(ArgAction::SetTrue)
}

// An option with a value.
fn option<'a>(alloc: Global, name: &'a str, value: &'a str) -> Arg<'a> {
    Arg::new(alloc, name).long(name).value_name(value)
}

// The paths of files, one or more.
fn files<'a>(alloc: Global, value: &'a str) -> Arg<'a> {
    Arg::new(alloc, "files")
        .value_name(value)
        .required(true)
        .action(ArgAction::Append)
        .num_args(1..)
}

/// The request that was read, or `None` if it names no command.
pub fn read_request<'m, 'a>(matches: &'m ArgMatches<'a>) -> Option<Request<'m, 'a>>
    ensures { IfSome result (λ request.
        subcommand_name_of matches.now ≡ Some (command_name (action_in request))) }
{
    let (name, matches) = matches.subcommand()?;
    match action_of(name)? {
        Action::Store(question) => Some(Request::Store(store_request(question, matches))),
        Action::Files(command) => Some(Request::Files(file_request(command, matches)?)),
    }
}

// What the command of a name does, or `None` if there is none.
fn action_of(name: &str) -> Option<Action>
    ensures { IfSome result (λ action. command_name action ≡ name.now) }
{
    let rows = &COMMANDS[..];
    for row in rows {
        if row.name == name {
            return Some(row.action);
        }
    }
    None
}

// A request to look ids up in a store.
fn store_request<'a>(question: Question, matches: &ArgMatches<'a>) -> StoreRequest<'a>
    ensures question { result.question ≡ question }
    ensures objects { option_map (λ path. path.now) result.objects
        ≡ first_value (found_of matches.now) (codes "objects") }
    ensures about { (one : Bool) × (stdin : Bool)
        × IsGiven (found_of matches.now) (codes "one") one
        × IsGiven (found_of matches.now) (codes "stdin") stdin
        × IsAbout (first_value (found_of matches.now) (codes "prefix")) one stdin result.ask }
{
    let one = matches.get_flag("one");
    let stdin = matches.get_flag("stdin");
    let ask = ask_of(matches.get_str("prefix"), one, stdin);
    StoreRequest {
        question,
        ask,
        least: usize::from(matches.get_one::<u8>("least").unwrap_or(4)),
        objects: matches.get_str("objects"),
        kind: kind_of(matches),
    }
}

// A request to read files, or `None` if none is given.
fn file_request<'m, 'a>(
    command: FileCommand,
    matches: &'m ArgMatches<'a>,
) -> Option<FileRequest<'m, 'a>>
    ensures files { IfSome result (λ request. (request.command ≡ command)
        × (Some (map (λ path. path.now) request.paths.now)
        ≡ option_map raw_values (matched_of (found_of matches.now) (codes "files")))) }
    ensures progress { IfSome result (λ request.
        IsGiven (found_of matches.now) (codes "no-progress") request.no_progress) }
{
    Some(FileRequest {
        command,
        paths: matches.get_strs("files")?,
        kind: kind_of(matches),
        no_progress: matches.get_flag("no-progress"),
    })
}

// What the question is about, by the prefix that is given, if one is, and by whether `--one` and
// `--stdin` are.
fn ask_of<'a>(prefix: Option<&'a str>, one: bool, stdin: bool) -> Ask<'a>
    ensures { IsAbout (option_map (λ text. text.now) prefix.entry) one stdin result }
{
    match prefix {
        Some(prefix) if one => Ask::Prefix(prefix, Wanted::BareOne),
        Some(prefix) => Ask::Prefix(prefix, Wanted::Bare),
        None if !stdin => Ask::All,
        None if one => Ask::Lines(Wanted::One),
        None => Ask::Lines(Wanted::All),
    }
}

// The kind that was asked for.
fn kind_of(matches: &ArgMatches<'_>) -> Option<Kind>
    ensures sha1 { first_value (found_of matches.now) (codes "kind") ≡ Some (codes "sha1")
        → result ≡ Some Kind.Sha1 }
    ensures sha256 { first_value (found_of matches.now) (codes "kind") ≡ Some (codes "sha256")
        → result ≡ Some Kind.Sha256 }
    ensures none { first_value (found_of matches.now) (codes "kind") ≡ None → result ≡ None }
{
    match matches.get_str("kind") {
        Some("sha1") => Some(Kind::Sha1),
        Some("sha256") => Some(Kind::Sha256),
        _ => None,
    }
}

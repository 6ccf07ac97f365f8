//! Requests as they are read from a command line: the commands, their words and options.
ghost use Rattle.std.specs.Prelude.{◌≡◌, IfOk, IfSome};
ghost use Rattle.{clap.specs.Matches.found_of, requests.specs.Requests.{HasFewWorkers, OnInTurn}};
ghost use Rattle.requests.specs.Found.{AreArguments, IsAskedIn, IsRead};

use crate::help;
use crate::meaning::{Verb, Words};
use crate::request::CommandLine;
use clap::error::ErrorKind;
use clap::{Arg, ArgAction, ArgMatches, Command, Error};
use std::alloc::{AllocError, Global};
use std::fmt;

/// Reads a command line, whose first word is the name of the program.
///
/// # Errors
///
/// A message for the user, if the words are no command, or ask for help or for the version.
pub fn read_request<'a>(alloc: Global, words: &'a [String]) -> Result<CommandLine<'a>, Error>
    ensures asked { IfOk result IsRead }
    ensures limits { IfOk result (λ line. OnInTurn line HasFewWorkers) }
{
    let mut command = command(alloc)?;
    read_by(alloc, &mut command, words)
}

// Reads a command line as the program's command has it.
fn read_by<'a>(
    alloc: Global,
    command: &mut Command<'a>,
    words: &'a [String],
) -> Result<CommandLine<'a>, Error>
    ensures asked { IfOk result IsRead }
    ensures limits { IfOk result (λ line. OnInTurn line HasFewWorkers) }
{
    let matches = command.try_get_matches_from_mut(words)?;
    let line = line_of(&matches);
    let misuse = misuse_of(alloc, &matches);
    let verb = verb_in(&matches);
    drop(matches);
    match line {
        Some(line) => Ok(line),
        None => {
            let (kind, message) = misuse?;
            match (verb, words.get(1)) {
                (Some(verb), Some(name)) => Err(misused(alloc, verb, name, kind, &message)?),
                _ => Err(command.error(kind, &message)?),
            }
        }
    }
}

// The command that the words begin with.
fn verb_in(matches: &ArgMatches<'_>) -> Option<Verb> {
    let (name, _) = matches.subcommand()?;
    Verb::from_name(name)
}

// The error of the command of this name, whose words make no request, with the command's usage.
fn misused(
    alloc: Global,
    verb: Verb,
    name: &str,
    kind: ErrorKind,
    message: &str,
) -> Result<Error, AllocError> {
    let called = format!(in alloc; "confine {name}")?;
    let mut command = command_of(alloc, verb)?.bin_name(&called)?;
    command.error(kind, message)
}

// The error of a command line that makes no request.
fn misuse_of(alloc: Global, matches: &ArgMatches<'_>) -> Result<(ErrorKind, String), AllocError> {
    let Some((name, found)) = matches.subcommand() else {
        let message = String::from_str(alloc, "a command is missing")?;
        return Ok((ErrorKind::MissingSubcommand, message));
    };
    if let Some(unneeded) = Unneeded::of(name, found) {
        let message = format!(in alloc; "{unneeded}")?;
        return Ok((ErrorKind::TooManyValues, message));
    }
    if inputs(found) > 1 {
        let message = String::from_str(alloc, help::TWO_INPUTS)?;
        return Ok((ErrorKind::TooManyValues, message));
    }
    let message = match name {
        "why" | "summary" | "diff" if !has_format(name, found) => help::WRONG_FORM,
        _ if !has_format(name, found) => help::WRONG_FORMAT,
        _ if !has_rules(found) => help::WRONG_RULES,
        _ if !has_rights(found) => help::WRONG_RIGHTS,
        "import" => help::WRONG_RIGHTS,
        "why" if found.get_str("actor") != Some("*") => help::READS_OF_ONE,
        "why" if found.get_str("policy").is_some() => help::ALL_BY_POLICY,
        "why" => help::ALL_AS_JSON,
        "show" => help::WRONG_STEPS,
        "claims" | "diff" => help::WRONG_SECONDS,
        "flows" => help::ONE_LABEL,
        _ => help::WRONG_WORKERS,
    };
    Ok((ErrorKind::InvalidValue, String::from_str(alloc, message)?))
}

// A policy in the place that it had when these commands still took one, and the words that remain.
#[derive(Clone, Copy)]
struct Unneeded<'a> {
    policy: &'a str,
    command: &'a str,
    system: &'a str,
    rest: [&'a str; 2],
    rights: Option<&'a str>,
}

impl<'a> Unneeded<'a> {
    // The policy among the words of a command, if there is one word more than the command takes.
    fn of(name: &'a str, found: &ArgMatches<'a>) -> Option<Unneeded<'a>> {
        let system = found.get_str("system")?;
        let last = found.get_str("unneeded");
        let (policy, rest) = match (found.get_str("actor"), found.get_str("object"), last) {
            (Some(policy), Some(actor), Some(object)) => (policy, [actor, object]),
            (None, None, Some(last)) => match found.get_str("claims") {
                Some(policy) => (policy, [last, ""]),
                None => (last, ["", ""]),
            },
            _ => (claims_with_all(found)?, ["--all", ""]),
        };
        Some(Unneeded {
            policy,
            command: name,
            system,
            rest,
            rights: found.get_str("rights"),
        })
    }
}

// The ids of files.
const FILES: [&str; 7] = [
    "system",
    "new",
    "policy",
    "certificate",
    "script",
    "log",
    "claims",
];

// The number of files that are standard input, which can be read once.
fn inputs(found: &ArgMatches<'_>) -> u64 {
    let mut inputs = 0;
    for id in &FILES {
        if found.get_str(id) == Some("-") {
            inputs = 1u64.saturating_add(inputs);
        }
    }
    inputs
}

// The file of claims, if the strongest that hold are asked for.
fn claims_with_all<'a>(found: &ArgMatches<'a>) -> Option<&'a str> {
    if found.get_flag("all") {
        found.get_str("claims")
    } else {
        None
    }
}

impl fmt::Display for Unneeded<'_> {
    fn fmt<W: fmt::Write>(&self, f: &mut fmt::Formatter<W>) -> fmt::Result {
        let Unneeded {
            policy,
            command,
            system,
            rest: [first, second],
            rights,
        } = self;
        write!(
            f,
            "'{policy}' isn't needed any more: 'confine {command} {system}"
        )?;
        for word in [first, second] {
            match *word {
                "" => {}
                "*" => f.write_str(" \"*\"")?,
                _ => write!(f, " {word}")?,
            }
        }
        if let Some(rights) = rights {
            write!(f, " --rights {rights}")?;
        }
        f.write_str("'")
    }
}

// Whether the word for the rules is one, if the command has such a word.
fn has_rules(found: &ArgMatches<'_>) -> bool {
    match found.get_str("rules") {
        Some(word) => word == "closed" || word == "sharp",
        None => true,
    }
}

// Whether the word for the rights is one, if there is such a word.
fn has_rights(found: &ArgMatches<'_>) -> bool {
    match found.get_str("rights") {
        Some(word) => word == "least" || word == "all",
        None => true,
    }
}

// Whether the word for the format is one of the command's.
fn has_format(name: &str, found: &ArgMatches<'_>) -> bool {
    match (Verb::from_name(name), found.get_str("format")) {
        (Some(verb), Some(word)) => verb.format(word).is_some(),
        _ => false,
    }
}

// The command line that the subcommand and its words make.
fn line_of<'a>(matches: &ArgMatches<'a>) -> Option<CommandLine<'a>>
    ensures meaning { IfSome result (λ line. IsAskedIn matches.now line) }
    ensures limits { IfSome result (λ line. OnInTurn line HasFewWorkers) }
{
    let (name, found) = matches.subcommand()?;
    if Unneeded::of(name, found).is_some() || inputs(found) > 1 {
        return None;
    }
    words_of(Verb::from_name(name)?, found).line()
}

// The words of a command, each by its id.
fn words_of<'a>(verb: Verb, found: &ArgMatches<'a>) -> Words<'a>
    ensures command { result.verb ≡ verb }
    ensures found { AreArguments (found_of found.now) result }
{
    Words {
        verb,
        system: found.get_str("system"),
        newer: found.get_str("new"),
        policy: found.get_str("policy"),
        certificate: found.get_str("certificate"),
        script: found.get_str("script"),
        log: found.get_str("log"),
        claims: found.get_str("claims"),
        actor: found.get_str("actor"),
        object: found.get_str("object"),
        workers: found.get_str("workers"),
        steps: found.get_str("steps"),
        seconds: found.get_str("seconds"),
        rights: found.get_str("rights"),
        rules: found.get_str("rules"),
        format: found.get_str("format"),
        explain: found.get_flag("explain"),
        quiet: found.get_flag("quiet"),
        cert: found.get_flag("cert"),
        missing: found.get_flag("missing"),
        surplus: found.get_flag("surplus"),
        split: found.get_flag("split"),
        all: found.get_flag("all"),
        take: found.get_flag("take"),
        reads: found.get_flag("reads"),
        as_claims: found.get_flag("as-claims"),
    }
}

fn command_of<'a>(alloc: Global, verb: Verb) -> Result<Command<'a>, AllocError> {
    match verb {
        Verb::Import => import_command(alloc),
        Verb::Check => check_command(alloc),
        Verb::Verify => verify_command(alloc),
        Verb::Run => run_command(alloc),
        Verb::Replay => replay_command(alloc),
        Verb::Close => close_command(alloc),
        Verb::Why => why_command(alloc),
        Verb::Show => show_command(alloc),
        Verb::Draw => draw_command(alloc),
        Verb::Summary => summary_command(alloc),
        Verb::Flows => flows_command(alloc),
        Verb::Diff => diff_command(alloc),
        Verb::Claims => claims_command(alloc),
        Verb::List => list_command(alloc),
    }
}

fn command<'a>(alloc: Global) -> Result<Command<'a>, AllocError> {
    let command = Command::new(alloc, "confine")
        .bin_name("confine")?
        .version(help::VERSION)
        .about(help::ABOUT)
        .after_help(help::EXAMPLE)
        .subcommand_required(true);
    let command = with(Ok(command), import_command(alloc));
    let command = with(command, close_command(alloc));
    let command = with(command, check_command(alloc));
    let command = with(command, summary_command(alloc));
    let command = with(command, why_command(alloc));
    let command = with(command, show_command(alloc));
    let command = with(command, flows_command(alloc));
    let command = with(command, claims_command(alloc));
    let command = with(command, diff_command(alloc));
    let command = with(command, draw_command(alloc));
    let command = with(command, list_command(alloc));
    let command = with(command, verify_command(alloc));
    let command = with(command, run_command(alloc));
    with(command, replay_command(alloc))
}

// A command with one more subcommand, if there is memory for both.
fn with<'a>(
    command: Result<Command<'a>, AllocError>,
    more: Result<Command<'a>, AllocError>,
) -> Result<Command<'a>, AllocError> {
    match more {
        Ok(more) => command?.subcommand(more),
        Err(error) => {
            drop(command);
            Err(error)
        }
    }
}

// A command with one more argument, if there is memory for both.
fn taking<'a>(
    command: Result<Command<'a>, AllocError>,
    argument: Result<Arg<'a>, AllocError>,
) -> Result<Command<'a>, AllocError> {
    match argument {
        Ok(argument) => command?.arg(argument),
        Err(error) => {
            drop(command);
            Err(error)
        }
    }
}

fn import_command<'a>(alloc: Global) -> Result<Command<'a>, AllocError> {
    let command = telling(alloc, "import", help::ABOUT_IMPORT, help::EXAMPLE_IMPORT)?;
    let command = Ok(command.override_usage(help::USAGE_IMPORT));
    let description = word(alloc, "system", "FILE", help::DESCRIPTION);
    let command = taking(command, Ok(description));
    let rights = option(alloc, "rights", "least|all", help::RIGHTS);
    let command = taking(command, Ok(rights));
    let claims = flag(alloc, "as-claims", help::AS_CLAIMS).long("claims");
    taking(command, Ok(claims))
}

fn check_command<'a>(alloc: Global) -> Result<Command<'a>, AllocError> {
    let command = on_policy(alloc, "check", help::ABOUT_CHECK, help::EXAMPLE_CHECK);
    let command = taking(command, Ok(rules(alloc)));
    let command = taking(command, Ok(workers(alloc)));
    taking(command, Ok(flag(alloc, "cert", help::CERT)))
}

fn verify_command<'a>(alloc: Global) -> Result<Command<'a>, AllocError> {
    let command = on_policy(alloc, "verify", help::ABOUT_VERIFY, help::EXAMPLE_VERIFY);
    let certificate = word(alloc, "certificate", "CERT", help::CERTIFICATE);
    let command = taking(command, Ok(certificate));
    taking(command, Ok(rules(alloc)))
}

fn run_command<'a>(alloc: Global) -> Result<Command<'a>, AllocError> {
    let command = on_policy(alloc, "run", help::ABOUT_RUN, help::EXAMPLE_RUN);
    let command = taking(command, Ok(word(alloc, "script", "SCRIPT", help::SCRIPT)));
    let command = taking(command, Ok(rules(alloc)));
    let split = flag(alloc, "split", help::SPLIT);
    taking(command, split.conflicts_with("rules"))
}

fn replay_command<'a>(alloc: Global) -> Result<Command<'a>, AllocError> {
    on_policy(alloc, "replay", help::ABOUT_REPLAY, help::EXAMPLE_REPLAY)?.arg(word(
        alloc,
        "log",
        "LOG",
        help::LOG,
    ))
}

fn close_command<'a>(alloc: Global) -> Result<Command<'a>, AllocError> {
    let command = on_system(alloc, "close", help::ABOUT_CLOSE, help::EXAMPLE_CLOSE);
    let policy = word(alloc, "policy", "POLICY", help::POLICY_TO_CLOSE).required(false);
    let command = taking(command, Ok(policy));
    let command = taking(command, Ok(rules(alloc)));
    let command = taking(command, Ok(flag(alloc, "missing", help::MISSING)));
    let surplus = flag(alloc, "surplus", help::SURPLUS);
    taking(command, surplus.conflicts_with("missing"))
}

fn why_command<'a>(alloc: Global) -> Result<Command<'a>, AllocError> {
    let command = on_system(alloc, "why", help::ABOUT_WHY, help::EXAMPLE_WHY);
    let command = taking(command, Ok(word(alloc, "actor", "A", help::ACTOR_OR_ALL)));
    let command = taking(command, Ok(word(alloc, "object", "B", help::OBJECT)));
    let command = taking(command, Ok(one_word_more(alloc)));
    let command = taking(command, Ok(flag(alloc, "reads", help::READS)));
    taking(command, Ok(allowing(alloc)))
}

fn show_command<'a>(alloc: Global) -> Result<Command<'a>, AllocError> {
    let command = on_system(alloc, "show", help::ABOUT_SHOW, help::EXAMPLE_SHOW);
    let command = taking(command, Ok(word(alloc, "actor", "A", help::ACTOR)));
    let command = taking(command, Ok(word(alloc, "object", "B", help::OBJECT)));
    let command = taking(command, Ok(one_word_more(alloc)));
    let command = taking(command, Ok(flag(alloc, "take", help::TAKE)));
    let steps = option(alloc, "steps", "N", help::STEPS);
    taking(command, Ok(steps.default_value("15000")))
}

fn summary_command<'a>(alloc: Global) -> Result<Command<'a>, AllocError> {
    let command = on_system(alloc, "summary", help::ABOUT_SUMMARY, help::EXAMPLE_SUMMARY);
    taking(command, Ok(one_word_more(alloc)))
}

fn flows_command<'a>(alloc: Global) -> Result<Command<'a>, AllocError> {
    let command = on_system(alloc, "flows", help::ABOUT_FLOWS, help::EXAMPLE_FLOWS);
    let from = word(alloc, "actor", "A", help::FLOWS_FROM).required(false);
    let command = taking(command, Ok(from));
    let to = word(alloc, "object", "B", help::FLOWS_TO).required(false);
    taking(command, Ok(to))
}

fn diff_command<'a>(alloc: Global) -> Result<Command<'a>, AllocError> {
    let command = telling(alloc, "diff", help::ABOUT_DIFF, help::EXAMPLE_DIFF);
    let command = taking(command, Ok(word(alloc, "system", "OLD", help::OLD_SYSTEM)));
    let command = taking(command, Ok(word(alloc, "new", "NEW", help::NEW_SYSTEM)));
    let rights = option(alloc, "rights", "R", help::RIGHTS_OF_SYSTEM);
    let command = taking(command, Ok(rights));
    taking(command, Ok(seconds(alloc)))
}

fn draw_command<'a>(alloc: Global) -> Result<Command<'a>, AllocError> {
    let command = on_system(alloc, "draw", help::ABOUT_DRAW, help::EXAMPLE_DRAW);
    let command = taking(command, Ok(one_word_more(alloc)));
    let command = taking(command, Ok(flag(alloc, "all", help::ALL_LABELS)));
    taking(command, Ok(allowing(alloc)))
}

fn claims_command<'a>(alloc: Global) -> Result<Command<'a>, AllocError> {
    let command = on_system(alloc, "claims", help::ABOUT_CLAIMS, help::EXAMPLE_CLAIMS);
    let claims = word(alloc, "claims", "CLAIMS", help::CLAIMS).required(false);
    let command = taking(command, claims.required_unless_present("all"));
    let command = taking(command, Ok(one_word_more(alloc)));
    let command = taking(command, Ok(seconds(alloc)));
    taking(command, Ok(flag(alloc, "all", help::ALL)))
}

fn list_command<'a>(alloc: Global) -> Result<Command<'a>, AllocError> {
    on_system(alloc, "list", help::ABOUT_LIST, help::EXAMPLE_LIST)
}

// A command whose first files are a table and a policy.
fn on_policy<'a>(
    alloc: Global,
    name: &'a str,
    about: &'a str,
    example: &'a str,
) -> Result<Command<'a>, AllocError> {
    let command = telling(alloc, name, about, example);
    let command = taking(command, Ok(word(alloc, "system", "TABLE", help::TABLE)));
    taking(command, Ok(word(alloc, "policy", "POLICY", help::POLICY)))
}

// A command whose first file is a system.
fn on_system<'a>(
    alloc: Global,
    name: &'a str,
    about: &'a str,
    example: &'a str,
) -> Result<Command<'a>, AllocError> {
    let command = telling(alloc, name, about, example);
    let command = taking(command, Ok(word(alloc, "system", "SYSTEM", help::SYSTEM)));
    taking(
        command,
        Ok(option(alloc, "rights", "R", help::RIGHTS_OF_SYSTEM)),
    )
}

// A command with the options that each has for how findings are told.
fn telling<'a>(
    alloc: Global,
    name: &'a str,
    about: &'a str,
    example: &'a str,
) -> Result<Command<'a>, AllocError> {
    let command = Command::new(alloc, name)
        .about(about)
        .after_help(example)
        .arg(flag(alloc, "explain", help::EXPLAIN));
    let command = taking(command, Ok(flag(alloc, "quiet", help::QUIET)));
    taking(command, Ok(format(alloc, name)))
}

// The option for the format of a command's reports, or of its answer where that has two forms.
fn format<'a>(alloc: Global, name: &str) -> Arg<'a> {
    match name {
        "why" | "summary" | "diff" => option(alloc, "format", "F", help::FORM).default_value(
            "text",
        ),
        _ => option(alloc, "format", "F", help::FORMAT).default_value("json"),
    }
}

// The option for the rules by which a policy is judged.
fn rules<'a>(alloc: Global) -> Arg<'a> {
    option(alloc, "rules", "RULES", help::RULES).default_value("closed")
}

// The option for a policy that is asked instead of the table.
fn allowing<'a>(alloc: Global) -> Arg<'a> {
    option(alloc, "policy", "POLICY", help::POLICY_ALLOWS)
}

// One word more than a command takes: the command took a policy before, and a command line with one is told so.
fn one_word_more<'a>(alloc: Global) -> Arg<'a> {
    word(alloc, "unneeded", "WORD", "")
        .required(false)
        .hide(true)
}

// The option for the number of workers.
fn workers<'a>(alloc: Global) -> Arg<'a> {
    option(alloc, "workers", "N", help::WORKERS).default_value("1")
}

// The option for the time in which runs are searched that sentences show.
fn seconds<'a>(alloc: Global) -> Arg<'a> {
    option(alloc, "seconds", "N", help::SECONDS).default_value("10")
}

// An option with a value.
fn option<'a>(alloc: Global, id: &'a str, value: &'a str, help: &'a str) -> Arg<'a> {
    Arg::new(alloc, id)
        .long(id)
        .value_name(value)
        .help(help)
        .allow_negative_numbers(true)
}

// An option without a value.
fn flag<'a>(alloc: Global, id: &'a str, help: &'a str) -> Arg<'a> {
    Arg::new(alloc, id)
        .long(id)
        .help(help)
        .action(ArgAction::SetTrue)
}

// An argument that is a word, such as the name of a file.
fn word<'a>(alloc: Global, id: &'a str, name: &'a str, help: &'a str) -> Arg<'a> {
    Arg::new(alloc, id)
        .value_name(name)
        .help(help)
        .required(true)
        .action(ArgAction::Set)
}

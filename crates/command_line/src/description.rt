//! The command line, described for `clap`.
ghost use Rattle.std.specs.Prelude.{◌≡◌, IfOk, List, OnOk};
ghost use Rattle.clap.specs.Walk.{Rule};
ghost use Rattle.clap.specs.Simple.{app_of};
ghost use Rattle.command_line.specs.Described.{AddsShape, HasRule, HaveRules, HaveShapes, settings};
ghost use Rattle.command_line.specs.Description as description;
ghost use Rattle.command_line.specs.Description.{optplan, subcommand};

use crate::cert_version::{MAX_VERSION, MIN_VERSION};
use crate::max_count::{MAX_LIMIT, MAX_SECONDS};
use clap::builder::ValueParser;
use clap::{Arg, ArgAction, Command};
use std::alloc::{AllocError, Global};

const ABOUT: &str =
    "A cost-optimal planner, plan validator and certificate checker for classical PDDL.";

const USAGE: &str =
    "optplan solve DOMAIN PROBLEM [--plan FILE] [--cert FILE] [--states N] [--instances N] [--seconds N] [--cert-version N] [--json] [--progress]
       optplan validate DOMAIN PROBLEM PLAN [--json]
       optplan check DOMAIN PROBLEM CERT [--plan FILE] [--instances N] [--json] [--progress]
       optplan explain DOMAIN PROBLEM [PLAN] [--trace] [--instances N] [--json]
       optplan explain DOMAIN PROBLEM --cert FILE [--plan FILE] [--instances N] [--json]";

const PROGRAM_HELP: &str =
    "N is a number from 1 to 16777216; the default is 1000000. Of --seconds it is at most 1000000; by default the time is not limited.
Of --cert-version it is 2, 3 or 4.
One file that is read may be `-`, the standard input. One that is written may be `-`, the standard output; the answer then goes to the standard error.

Example:
  optplan solve domain.pddl problem.pddl --plan plan.txt --cert cert.txt
  optplan check domain.pddl problem.pddl cert.txt --plan plan.txt
  optplan explain domain.pddl problem.pddl plan.txt

Status:
   0  a cheapest plan was found, the plan solves the task, the certificate is accepted, or the files have no fault
   2  the command line is wrong, or asks for help
  10  there is no plan
  11  a limit was exceeded; if it was that of states or of time, no plan costs less than the printed bound
  12  the plan does not solve the task, or the certificate is not accepted
  20  a file has a fault
  21  a file or the standard output could not be opened, read or written
  22  out of memory";

const SOLVE_HELP: &str = "Example:
  optplan solve domain.pddl problem.pddl --states 5000000 --plan plan.txt

Status: 0 a cheapest plan was found, 10 there is no plan, 11 a limit was exceeded; for others see `optplan help`
Put `--` before the name of a file that begins with a hyphen.";

const VALIDATE_HELP: &str = "Example:
  optplan validate domain.pddl problem.pddl plan.txt

Status: 0 the plan solves the task, 12 it does not; for others see `optplan help`
Put `--` before the name of a file that begins with a hyphen.";

const CHECK_HELP: &str = "Example:
  optplan check domain.pddl problem.pddl cert.txt --plan plan.txt

Status: 0 the certificate is accepted, 12 it is not; for others see `optplan help`
Put `--` before the name of a file that begins with a hyphen.";

const EXPLAIN_HELP: &str = "Example:
  optplan explain domain.pddl problem.pddl plan.txt

Status: 0 no fault, 11 a limit was exceeded, 12 the plan does not solve the task, or the certificate is not accepted, 20 a file has a fault; for others see `optplan help`
Put `--` before the name of a file that begins with a hyphen.";

const INSTANCES_HELP: &str = "Keep at most N action instances, 1 to 16777216";

/// The program.
pub(crate) fn program<'a>(alloc: Global) -> Result<Command<'a>, AllocError>
    ensures { IfOk result (λ command. app_of command ≡ optplan) }
{
    let commands = commands(alloc)?;
    settings(alloc).subcommands(commands)?.bin_name("optplan")
}

/// The program without its commands.
fn settings<'a>(alloc: Global) -> Command<'a>
    ensures { app_of result ≡ settings }
{
    Command::new(alloc, "optplan")
        .about(ABOUT)
        .version("0.1.0")
        .override_usage(USAGE)
        .after_help(PROGRAM_HELP)
        .no_binary_name(true)
        .subcommand_required(true)
        .arg_required_else_help(true)
}

/// The four commands.
fn commands<'a>(alloc: Global) -> Result<Vec<Command<'a>>, AllocError>
    ensures { IfOk result (λ commands. HaveShapes commands.items optplan.subs) }
{
    let mut commands = Vec::new(alloc);
    add_solve(alloc, &mut commands)?;
    add_validate(alloc, &mut commands)?;
    add_check(alloc, &mut commands)?;
    add_explain(alloc, &mut commands)?;
    Ok(commands)
}

/// Adds the command `solve`.
fn add_solve<'a>(alloc: Global, commands: &mut Vec<Command<'a>>) -> Result<(), AllocError>
    ensures { OnOk result (AddsShape commands.old.items description.solve commands.new.items) }
{
    let arguments = vec![in alloc;
        file(alloc, "DOMAIN", "The domain file"),
        file(alloc, "PROBLEM", "The problem file"),
        option(alloc, "plan", "FILE", "Also write the plan to this file"),
        option(
            alloc,
            "cert",
            "FILE",
            "Write the certificate of the answer to this file",
        ),
        limit(alloc, "states", "List at most N states, 1 to 16777216",),
        limit(alloc, "instances", INSTANCES_HELP),
        seconds(alloc),
        cert_version(alloc),
        json(alloc),
        progress(alloc, "Say on the standard error how far the search is"),
    ]?;
    let texts = CommandTexts {
        name: "solve",
        about: "Find a cheapest plan, or show that there is none",
        help: SOLVE_HELP,
    };
    add_command(alloc, texts, arguments, commands)
}

/// Adds the command `validate`.
fn add_validate<'a>(alloc: Global, commands: &mut Vec<Command<'a>>) -> Result<(), AllocError>
    ensures { OnOk result (AddsShape commands.old.items description.validate commands.new.items) }
{
    let arguments = vec![in alloc;
        file(alloc, "DOMAIN", "The domain file"),
        file(alloc, "PROBLEM", "The problem file"),
        file(alloc, "PLAN", "The plan file"),
        json(alloc),
    ]?;
    let texts = CommandTexts {
        name: "validate",
        about: "Test whether a plan solves a task",
        help: VALIDATE_HELP,
    };
    add_command(alloc, texts, arguments, commands)
}

/// Adds the command `check`.
fn add_check<'a>(alloc: Global, commands: &mut Vec<Command<'a>>) -> Result<(), AllocError>
    ensures { OnOk result (AddsShape commands.old.items description.check commands.new.items) }
{
    let arguments = vec![in alloc;
        file(alloc, "DOMAIN", "The domain file"),
        file(alloc, "PROBLEM", "The problem file"),
        file(alloc, "CERT", "The certificate file"),
        option(
            alloc,
            "plan",
            "FILE",
            "Check that the plan in this file is a cheapest one",
        ),
        limit(alloc, "instances", INSTANCES_HELP),
        json(alloc),
        progress(
            alloc,
            "Say on the standard error how much of the certificate is read"
        ),
    ]?;
    let texts = CommandTexts {
        name: "check",
        about: "Check a certificate, and say what it shows",
        help: CHECK_HELP,
    };
    add_command(alloc, texts, arguments, commands)
}

/// Adds the command `explain`.
fn add_explain<'a>(alloc: Global, commands: &mut Vec<Command<'a>>) -> Result<(), AllocError>
    ensures { OnOk result (AddsShape commands.old.items description.explain commands.new.items) }
{
    let arguments = vec![in alloc;
        file(alloc, "DOMAIN", "The domain file"),
        file(alloc, "PROBLEM", "The problem file"),
        optional_file(
            alloc,
            "PLAN",
            "The plan file; without it the task is summarized"
        ),
        trace(alloc),
        option(
            alloc,
            "cert",
            "FILE",
            "Say what the certificate in this file shows, or why it is refused",
        ),
        option(
            alloc,
            "plan",
            "FILE",
            "With --cert: check that the plan in this file is a cheapest one",
        ),
        limit(alloc, "instances", INSTANCES_HELP),
        json(alloc),
    ]?;
    let texts = CommandTexts {
        name: "explain",
        about: "Explain what is wrong with a task, a plan or a certificate, or summarize a task",
        help: EXPLAIN_HELP,
    };
    add_command(alloc, texts, arguments, commands)
}

/// The name of a command, and what the program's help says about it.
#[derive(Clone, Copy)]
struct CommandTexts<'a> {
    name: &'a str,
    /// The line in the list of commands.
    about: &'a str,
    /// The text below the list of its arguments.
    help: &'a str,
}

/// Adds a command with this name and these arguments.
fn add_command<'a>(
    alloc: Global,
    texts: CommandTexts<'a>,
    arguments: Vec<Arg<'a>>,
    commands: &mut Vec<Command<'a>>,
) -> Result<(), AllocError>
    ensures { (rules : List Rule) → HaveRules arguments.entry.items rules
        → OnOk result (AddsShape commands.old.items (subcommand texts.entry.name.now rules) commands.new.items) }
{
    let command = Command::new(alloc, texts.name)
        .about(texts.about)
        .after_help(texts.help)
        .args(arguments)?;
    Ok(commands.push(command)?)
}

/// A required file name.
fn file<'a>(alloc: Global, name: &'a str, help: &'a str) -> Arg<'a>
    ensures { HasRule result (description.file name.entry.now) }
{
    Arg::new(alloc, name).help(help).required(true)
}

/// An optional file name.
fn optional_file<'a>(alloc: Global, name: &'a str, help: &'a str) -> Arg<'a>
    ensures { HasRule result (description.optional_file name.entry.now) }
{
    Arg::new(alloc, name).help(help)
}

/// An option with a value.
fn option<'a>(alloc: Global, name: &'a str, value: &'a str, help: &'a str) -> Arg<'a>
    ensures { HasRule result (description.option name.entry.now) }
{
    Arg::new(alloc, name)
        .long(name)
        .value_name(value)
        .help(help)
}

/// An option whose value is a limit.
fn limit<'a>(alloc: Global, name: &'a str, help: &'a str) -> Arg<'a>
    ensures { HasRule result (description.limit name.entry.now) }
{
    option(alloc, name, "N", help)
        .value_parser(ValueParser::unsigned(1, MAX_LIMIT as u64))
        .default_value("1000000")
}

/// The option for the limit of seconds.
fn seconds<'a>(alloc: Global) -> Arg<'a>
    ensures { HasRule result description.seconds }
{
    option(
        alloc,
        "seconds",
        "N",
        "Stop after N seconds, 1 to 1000000, with the bound by then",
    )
    .value_parser(ValueParser::unsigned(1, MAX_SECONDS))
}

/// The option for the latest version of the certificate.
fn cert_version<'a>(alloc: Global) -> Arg<'a>
    ensures { HasRule result description.cert_version }
{
    option(
        alloc,
        "cert-version",
        "N",
        "Let the certificate have version N at most, 2 to 4; 2 may take far longer",
    )
    .value_parser(ValueParser::unsigned(MIN_VERSION, MAX_VERSION))
    .default_value("4")
}

/// The option for the trace of a plan.
fn trace<'a>(alloc: Global) -> Arg<'a>
    ensures { HasRule result description.trace }
{
    flag(
        alloc,
        "trace",
        "Say what each step of the plan adds and deletes",
    )
}

/// The option for answers as JSON.
fn json<'a>(alloc: Global) -> Arg<'a>
    ensures { HasRule result description.json }
{
    flag(alloc, "json", "Print the answer as a line of JSON")
}

/// The option for progress reports.
fn progress<'a>(alloc: Global, help: &'a str) -> Arg<'a>
    ensures { HasRule result description.progress }
{
    flag(alloc, "progress", help)
}

/// A flag: an option without a value.
fn flag<'a>(alloc: Global, name: &'a str, help: &'a str) -> Arg<'a>
    ensures { HasRule result (description.flag name.entry.now) }
{
    Arg::new(alloc, name)
        .long(name)
        .action(ArgAction::SetTrue)
        .help(help)
}

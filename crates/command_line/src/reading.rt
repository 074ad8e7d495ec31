//! From words to an order.
ghost use Rattle.std.specs.Prelude.{◌≡◌, IfErr, IfOk, is_none, option_and_then, option_map};
ghost use Rattle.clap.specs.Matches.{found_of};
ghost use Rattle.clap.specs.Simple.{subcommand_rows_of};
ghost use Rattle.clap.specs.Walk.{first_of, rows_of};
ghost use Rattle.command_line.specs.Examples.{AreRead};
ghost use Rattle.command_line.specs.Orders.{Asks, IsCommand, cert_version_in, check_in, explain_cert_in, explain_files_in, explain_in, fits, is_given, limit_in, limit_of, seconds_in, solve_in, trace_in, validate_in, request_in};
ghost use Rattle.command_line.specs.Versions.{number_of};
ghost use Rattle.command_line.specs.View.{IsOfWords, number_in, text_in, texts, request_of};

use crate::cert_version::CertVersion;
use crate::description::program;
use crate::fault::WordsFault;
use crate::max_count::MaxCount;
use crate::one_file::overwritten;
use crate::order::Order;
use crate::streams::shared;
use clap::error::ErrorKind;
use clap::{ArgMatches, Error};
use std::alloc::{AllocError, Global};

/// The order given by the words after the program's name.
///
/// ```text
/// optplan solve DOMAIN PROBLEM [--plan FILE] [--cert FILE] [--states N] [--instances N] [--seconds N] [--cert-version N] [--json] [--progress]
/// optplan validate DOMAIN PROBLEM PLAN [--json]
/// optplan check DOMAIN PROBLEM CERT [--plan FILE] [--instances N] [--json] [--progress]
/// optplan explain DOMAIN PROBLEM [PLAN] [--trace] [--instances N] [--json]
/// optplan explain DOMAIN PROBLEM --cert FILE [--plan FILE] [--instances N] [--json]
/// ```
///
/// Options may come in any order, each at most once, before, between and after the files, as `--states 5` or `--states=5`. A word
/// after `--` is a file name, even if it begins with a hyphen. A number is from 1 to 16,777,216, in decimal digits after an
/// optional plus; the default is 1,000,000. Seconds are at most 1,000,000, and not limited by default. Versions of certificates are from
/// 2 to 4, by default 4. A trace needs a plan, and `--plan` of `explain` needs `--cert`, which goes without the other two. The files that
/// `solve` writes are two, and neither is one that it reads, by their names without `.`, `..` and doubled slashes. The name `-` is that of
/// the standard input or output: at most one file is read from the one, and at most one written to the other. Words that ask for help
/// or the version are not an order: the fault's text is what they ask for.
pub fn read_words<'a>(alloc: Global, words: &'a [&str]) -> Result<Order<'a>, WordsFault>
    ensures asks { IfOk result (λ order. Asks (texts words.entry.now) (request_of order)) }
    ensures refused { IfErr result (λ fault. IsOfWords fault → IsCommand (texts words.entry.now) → ⊥) }
{
    let matches = program(alloc)?.try_get_matches_from(words)?;
    let Some(order) = order_in(&matches) else {
        return Err(no_order(alloc, &matches));
    };
    match unfit(alloc, &order)? {
        None => Ok(order),
        Some(why) => Err(conflicting(alloc, why.as_str())),
    }
}

/// The worked examples of words and their orders, proved. The function does nothing.
pub fn examples_are_read()
    ensures { AreRead }
{}

/// The fault for a match that is not an order: options of `explain` that do not go together. `clap` makes no match without a command
/// and its files.
fn no_order(alloc: Global, matches: &ArgMatches<'_>) -> WordsFault {
    match unfitting(alloc, matches) {
        Ok(error) => WordsFault::Words(error),
        Err(refused) => WordsFault::from(refused),
    }
}

/// Why the files of the order do not go together.
fn unfit(alloc: Global, order: &Order<'_>) -> Result<Option<String>, AllocError>
    ensures { IfOk result (λ why. fits (request_of order.now) ≡ is_none why) }
{
    match overwritten(alloc, order)? {
        Some(why) => Ok(Some(String::from_str(alloc, why)?)),
        None => shared(alloc, order),
    }
}

/// The fault of an order whose files do not go together, for this reason.
fn conflicting(alloc: Global, why: &str) -> WordsFault {
    match conflict(alloc, why) {
        Ok(error) => WordsFault::Words(error),
        Err(refused) => WordsFault::from(refused),
    }
}

/// The error for arguments that do not go together, for this reason.
fn conflict(alloc: Global, why: &str) -> Result<Error, AllocError> {
    program(alloc)?.error(ErrorKind::ArgumentConflict, why)
}

/// The error for options that do not go together.
fn unfitting(alloc: Global, matches: &ArgMatches<'_>) -> Result<Error, AllocError> {
    if has_value(matches, "cert") {
        let text =
            "`--cert` goes without PLAN and `--trace`: optplan explain DOMAIN PROBLEM --cert FILE [--plan FILE]";
        conflict(alloc, text)
    } else if has_value(matches, "plan") {
        let text =
            "`--plan` needs `--cert`: optplan explain DOMAIN PROBLEM PLAN, or --cert FILE --plan FILE";
        program(alloc)?.error(ErrorKind::MissingRequiredArgument, text)
    } else {
        let text = "`--trace` needs a plan: optplan explain DOMAIN PROBLEM PLAN --trace";
        program(alloc)?.error(ErrorKind::MissingRequiredArgument, text)
    }
}

/// Whether an argument of the command has a value.
fn has_value(matches: &ArgMatches<'_>, name: &str) -> bool {
    match matches.subcommand() {
        Some((_, matches)) => value_of(matches, name).is_some(),
        None => false,
    }
}

/// The order of a match.
fn order_in<'a>(matches: &ArgMatches<'a>) -> Option<Order<'a>>
    ensures { option_map request_of result ≡ option_and_then request_in (subcommand_rows_of matches.now) }
{
    let (name, matches) = matches.subcommand()?;
    match name {
        "solve" => solve_in(matches),
        "validate" => validate_in(matches),
        "check" => check_in(matches),
        "explain" => explain_in(matches),
        _ => None,
    }
}

/// The order of the command `solve`, with these values.
fn solve_in<'a>(matches: &ArgMatches<'a>) -> Option<Order<'a>>
    ensures { option_map request_of result ≡ solve_in (rows_of (found_of matches.now)) }
{
    let domain = value_of(matches, "DOMAIN")?;
    let problem = value_of(matches, "PROBLEM")?;
    let states = limit_in(matches, "states")?;
    let instances = limit_in(matches, "instances")?;
    let seconds = seconds_in(matches)?;
    let cert_version = cert_version_in(matches)?;
    Some(Order::Solve {
        domain,
        problem,
        plan: value_of(matches, "plan"),
        cert: value_of(matches, "cert"),
        states,
        instances,
        seconds,
        cert_version,
        json: is_given(matches, "json"),
        progress: is_given(matches, "progress"),
    })
}

/// The order of the command `validate`, with these values.
fn validate_in<'a>(matches: &ArgMatches<'a>) -> Option<Order<'a>>
    ensures { option_map request_of result ≡ validate_in (rows_of (found_of matches.now)) }
{
    let domain = value_of(matches, "DOMAIN")?;
    let problem = value_of(matches, "PROBLEM")?;
    let plan = value_of(matches, "PLAN")?;
    Some(Order::Validate {
        domain,
        problem,
        plan,
        json: is_given(matches, "json"),
    })
}

/// The order of the command `check`, with these values.
fn check_in<'a>(matches: &ArgMatches<'a>) -> Option<Order<'a>>
    ensures { option_map request_of result ≡ check_in (rows_of (found_of matches.now)) }
{
    let domain = value_of(matches, "DOMAIN")?;
    let problem = value_of(matches, "PROBLEM")?;
    let cert = value_of(matches, "CERT")?;
    let instances = limit_in(matches, "instances")?;
    Some(Order::Check {
        domain,
        problem,
        cert,
        plan: value_of(matches, "plan"),
        instances,
        json: is_given(matches, "json"),
        progress: is_given(matches, "progress"),
    })
}

/// The order of the command `explain`, with these values.
fn explain_in<'a>(matches: &ArgMatches<'a>) -> Option<Order<'a>>
    ensures { option_map request_of result ≡ explain_in (rows_of (found_of matches.now)) }
{
    match value_of(matches, "cert") {
        Some(cert) => match value_of(matches, "PLAN") {
            Some(_) => None,
            None => explain_cert_in(matches, cert),
        },
        None => match value_of(matches, "plan") {
            Some(_) => None,
            None => explain_files_in(matches),
        },
    }
}

/// The order to explain this certificate.
fn explain_cert_in<'a>(matches: &ArgMatches<'a>, cert: &'a str) -> Option<Order<'a>>
    ensures { option_map request_of result ≡ explain_cert_in (rows_of (found_of matches.now)) cert.entry.now }
{
    let domain = value_of(matches, "DOMAIN")?;
    let problem = value_of(matches, "PROBLEM")?;
    let instances = limit_in(matches, "instances")?;
    if is_given(matches, "trace") {
        return None;
    }
    Some(Order::ExplainCert {
        domain,
        problem,
        cert,
        plan: value_of(matches, "plan"),
        instances,
        json: is_given(matches, "json"),
    })
}

/// The order to explain a task, or a plan if one is given.
fn explain_files_in<'a>(matches: &ArgMatches<'a>) -> Option<Order<'a>>
    ensures { option_map request_of result ≡ explain_files_in (rows_of (found_of matches.now)) }
{
    let domain = value_of(matches, "DOMAIN")?;
    let problem = value_of(matches, "PROBLEM")?;
    let instances = limit_in(matches, "instances")?;
    let trace = trace_in(matches)?;
    Some(Order::Explain {
        domain,
        problem,
        plan: value_of(matches, "PLAN"),
        trace,
        instances,
        json: is_given(matches, "json"),
    })
}

/// Whether a trace is asked for; `None` if it is, and no plan is given.
fn trace_in(matches: &ArgMatches<'_>) -> Option<bool>
    ensures { result ≡ trace_in (rows_of (found_of matches.now)) }
{
    if is_given(matches, "trace") {
        value_of(matches, "PLAN")?;
        Some(true)
    } else {
        Some(false)
    }
}

/// The value of an argument.
fn value_of<'a>(matches: &ArgMatches<'a>, name: &str) -> Option<&'a str>
    ensures { text_in result ≡ first_of name.now (rows_of (found_of matches.now)) }
{
    matches.get_str(name)
}

/// The value of an argument, as a limit.
fn limit_in(matches: &ArgMatches<'_>, name: &str) -> Option<MaxCount>
    ensures { option_map (λ limit. limit.number) result ≡ limit_in name.now (rows_of (found_of matches.now)) }
{
    limit_of(value_of(matches, name)?)
}

/// The limit of seconds, if one is given; `None` if what is given is no limit.
fn seconds_in(matches: &ArgMatches<'_>) -> Option<Option<MaxCount>>
    ensures { option_map number_in result ≡ seconds_in (rows_of (found_of matches.now)) }
{
    match value_of(matches, "seconds") {
        Some(text) => Some(Some(limit_of(text)?)),
        None => Some(None),
    }
}

/// The latest version that the certificate may have.
fn cert_version_in(matches: &ArgMatches<'_>) -> Option<CertVersion>
    ensures { option_map number_of result ≡ cert_version_in (rows_of (found_of matches.now)) }
{
    CertVersion::new(limit_in(matches, "cert-version")?.number())
}

/// The limit that a text denotes.
fn limit_of(text: &str) -> Option<MaxCount>
    ensures { option_map (λ limit. limit.number) result ≡ limit_of text.now }
{
    match text.parse::<u32>() {
        Ok(number) => MaxCount::new(number),
        Err(_) => None,
    }
}

/// Whether a flag is given.
fn is_given(matches: &ArgMatches<'_>, name: &str) -> bool
    ensures { result ≡ is_given name.now (rows_of (found_of matches.now)) }
{
    match value_of(matches, name) {
        Some(value) => value == "true",
        None => false,
    }
}

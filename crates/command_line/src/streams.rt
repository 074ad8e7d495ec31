//! The standard input and output as files of an order.
ghost use Rattle.std.specs.Prelude.{◌≡◌, ◌+◌, IfOk, is_none, min};
ghost use Rattle.command_line.specs.Orders.{fills_the_output, if_named, inputs_of, shares_no_stream, written_by};
ghost use Rattle.command_line.specs.Places.{noted};
ghost use Rattle.command_line.specs.Streams.{is_stream, one_if, streams_in};
ghost use Rattle.command_line.specs.View.{request_of, text_in};

use crate::order::Order;
use std::alloc::{AllocError, Global};

/// Whether this is the name of the standard input and of the standard output.
pub fn is_stream(name: &str) -> bool
    ensures { result ≡ is_stream name.now }
{
    name == "-"
}

/// Whether the order writes a file to the standard output. The answer then goes to the standard error.
pub fn fills_the_output(order: &Order<'_>) -> bool
    ensures { result ≡ fills_the_output (request_of order.now) }
{
    match *order {
        Order::Solve { plan, cert, .. } => {
            plan.is_some_and(is_stream) || cert.is_some_and(is_stream)
        }
        Order::Validate { .. } | Order::Check { .. } => false,
        Order::Explain { .. } | Order::ExplainCert { .. } => false,
    }
}

/// Why the order would read two files from the standard input, or write two to the standard output.
///
/// # Errors
/// An allocation failed.
pub(crate) fn shared(alloc: Global, order: &Order<'_>) -> Result<Option<String>, AllocError>
    ensures { IfOk result (λ why. shares_no_stream (request_of order.now) ≡ is_none why) }
{
    if let Places::Twice(first, second) = inputs(order) {
        let why = format!(in alloc;
            "{first} and {second} are both `-`, but only one file can be read from the standard input"
        )?;
        return Ok(Some(why));
    }
    if let Places::Twice(first, second) = outputs(order) {
        let why = format!(in alloc;
            "{first} and {second} are both `-`, but only one file can be written to the standard output"
        )?;
        return Ok(Some(why));
    }
    Ok(None)
}

/// Where on the command line a stream is named.
#[derive(Clone, Copy)]
enum Places {
    Nowhere,
    Once(&'static str),
    /// Twice at least: the first two places.
    Twice(&'static str, &'static str),
}

impl Places {
    /// These places, and this one, if the name in it is that of a stream.
    fn with(self, place: &'static str, name: &str) -> Places
        ensures { noted result ≡ min (noted self + one_if (is_stream name.now)) 2 }
    {
        if !is_stream(name) {
            return self;
        }
        match self {
            Places::Nowhere => Places::Once(place),
            Places::Once(first) => Places::Twice(first, place),
            Places::Twice(first, second) => Places::Twice(first, second),
        }
    }

    /// The same, if a name is given.
    fn with_named(self, place: &'static str, name: Option<&str>) -> Places
        ensures { noted result ≡ min (noted self + streams_in (if_named (text_in name.entry))) 2 }
    {
        match name {
            Some(name) => self.with(place, name),
            None => self,
        }
    }
}

/// Where the standard input is named, among the files of a task.
fn of_task(domain: &str, problem: &str) -> Places
    ensures { noted result ≡ one_if (is_stream domain.now) + one_if (is_stream problem.now) }
{
    Places::Nowhere
        .with("DOMAIN", domain)
        .with("PROBLEM", problem)
}

/// Where the standard input is named.
fn inputs(order: &Order<'_>) -> Places
    ensures { noted result ≡ min (streams_in (inputs_of (request_of order.now))) 2 }
{
    match *order {
        Order::Solve {
            domain,
            problem,
            ..
        } => of_task(domain, problem),
        Order::Validate {
            domain,
            problem,
            plan,
            ..
        } => of_task(domain, problem).with("PLAN", plan),
        Order::Check {
            domain,
            problem,
            cert,
            plan,
            ..
        } => of_task(domain, problem)
            .with("CERT", cert)
            .with_named("`--plan`", plan),
        Order::Explain {
            domain,
            problem,
            plan,
            ..
        } => of_task(domain, problem).with_named("PLAN", plan),
        Order::ExplainCert {
            domain,
            problem,
            cert,
            plan,
            ..
        } => of_task(domain, problem)
            .with("`--cert`", cert)
            .with_named("`--plan`", plan),
    }
}

/// Where the standard output is named.
fn outputs(order: &Order<'_>) -> Places
    ensures { noted result ≡ min (streams_in (written_by (request_of order.now))) 2 }
{
    match *order {
        Order::Solve { plan, cert, .. } => Places::Nowhere
            .with_named("`--plan`", plan)
            .with_named("`--cert`", cert),
        Order::Validate { .. } | Order::Check { .. } => Places::Nowhere,
        Order::Explain { .. } | Order::ExplainCert { .. } => Places::Nowhere,
    }
}

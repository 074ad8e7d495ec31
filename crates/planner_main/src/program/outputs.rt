//! Where a result is printed and written.
ghost use Rattle.std.specs.Prelude.{◌≡◌, None, false};
ghost use Rattle.command_line.specs.View.{request_of};
ghost use Rattle.planner_main.specs.Asked.{outputs_in, outputs_of};
ghost use Rattle.printed_answers.specs.Reported.{is_json};

use command_line::Order;
use printed_answers::Format;

/// The format of a result, and the files written besides standard output.
#[derive(Clone, Copy)]
pub(super) struct Outputs<'a> {
    /// The format of the standard output.
    pub(super) format: Format,
    /// The file to write the certificate to, if any.
    pub(super) cert: Option<&'a str>,
    /// The file to write the plan to, if any.
    pub(super) plan: Option<&'a str>,
    /// Whether it is reported which file fails.
    pub(super) progress: bool,
}

/// Output options of the command.
pub(super) fn outputs_of(order: Order<'_>) -> Outputs<'_>
    ensures { outputs_in result ≡ outputs_of (request_of order.entry) }
{
    match order {
        Order::Solve {
            plan,
            cert,
            json,
            progress,
            ..
        } => Outputs {
            format: format_of(json),
            cert,
            plan,
            progress,
        },
        Order::Validate { json, .. }
        | Order::Check { json, .. }
        | Order::Explain { json, .. }
        | Order::ExplainCert { json, .. } => only_reported(format_of(json)),
    }
}

/// The outputs of a command that writes no files.
fn only_reported<'a>(format: Format) -> Outputs<'a>
    ensures { outputs_in result ≡ record { json = is_json format; cert = None; plan = None; progress = false } }
{
    Outputs {
        format,
        cert: None,
        plan: None,
        progress: false,
    }
}

fn format_of(json: bool) -> Format
    ensures { is_json result ≡ json }
{
    if json { Format::Json } else { Format::Text }
}

//! What the program is asked to do.
use crate::cert_version::CertVersion;
use crate::max_count::MaxCount;

/// What the program is asked to do.
#[derive(Clone, Copy)]
pub enum Order<'a> {
    /// Find an optimal plan for the task of two files.
    Solve {
        /// The name of the domain file.
        domain: &'a str,
        /// The name of the problem file.
        problem: &'a str,
        /// The name of the file to write the plan to, if any.
        plan: Option<&'a str>,
        /// The name of the file to write the certificate to, if any.
        cert: Option<&'a str>,
        /// The maximum number of states that may be listed.
        states: MaxCount,
        /// The maximum number of instances that may be kept.
        instances: MaxCount,
        /// The maximum number of seconds that the search may take, at most 1,000,000; if none is given, the time is not limited.
        seconds: Option<MaxCount>,
        /// The latest version that the certificate may have.
        cert_version: CertVersion,
        /// Whether the answer is printed as JSON.
        json: bool,
        /// Whether the progress of the search is reported.
        progress: bool,
    },
    /// Judge whether the plan in a file solves the task of two files.
    Validate {
        /// The name of the domain file.
        domain: &'a str,
        /// The name of the problem file.
        problem: &'a str,
        /// The name of the plan file.
        plan: &'a str,
        /// Whether the answer is printed as JSON.
        json: bool,
    },
    /// Check what the certificate in a file shows about the task of two files.
    Check {
        /// The name of the domain file.
        domain: &'a str,
        /// The name of the problem file.
        problem: &'a str,
        /// The name of the certificate file.
        cert: &'a str,
        /// The name of the plan file, if any.
        plan: Option<&'a str>,
        /// The maximum number of instances that may be kept.
        instances: MaxCount,
        /// Whether the answer is printed as JSON.
        json: bool,
        /// Whether the progress of reading the certificate is reported.
        progress: bool,
    },
    /// Explain what is wrong with two files or with the plan in a third; without a plan, summarize the task.
    Explain {
        /// The name of the domain file.
        domain: &'a str,
        /// The name of the problem file.
        problem: &'a str,
        /// The name of the plan file, if any.
        plan: Option<&'a str>,
        /// Whether it is said what each step of the plan adds and deletes; only if a plan is given.
        trace: bool,
        /// The maximum number of instances that may be kept.
        instances: MaxCount,
        /// Whether the explanation is printed as JSON.
        json: bool,
    },
    /// Explain what the certificate in a file shows about the task of two files, or why it is refused.
    ExplainCert {
        /// The name of the domain file.
        domain: &'a str,
        /// The name of the problem file.
        problem: &'a str,
        /// The name of the certificate file.
        cert: &'a str,
        /// The name of the plan file, if any.
        plan: Option<&'a str>,
        /// The maximum number of instances that may be kept.
        instances: MaxCount,
        /// Whether the explanation is printed as JSON.
        json: bool,
    },
}

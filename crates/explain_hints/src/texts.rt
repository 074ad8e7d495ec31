//! The input texts, by file.
use std::fmt;

/// One of the three input files.
#[derive(Clone, Copy, Debug, PartialEq, Eq)]
pub enum File {
    /// The domain file.
    Domain,
    /// The problem file.
    Problem,
    /// The plan file.
    Plan,
}

impl fmt::Display for File {
    ghost use Rattle.std.specs.Prelude.{Some};
    ghost use Rattle.explain_hints.specs.Files.{file_view};
    ghost use Rattle.explain_hints.specs.Files.{name_of_file};

    ghost output = { λ file. Some (name_of_file (file_view file)) };

    fn fmt<W: fmt::Write>(&self, f: &mut fmt::Formatter<W>) -> fmt::Result {
        let name = match self {
            File::Domain => "domain",
            File::Problem => "problem",
            File::Plan => "plan",
        };
        write!(f, "{name}")
    }
}

/// A text, with the name of its file as the user gave it.
#[derive(Clone, Copy)]
pub struct NamedText<'a> {
    /// The name.
    pub name: &'a str,
    /// The bytes.
    pub text: &'a [u8],
}

/// The texts of a task and a plan. The plan's text is empty if no plan is given.
#[derive(Clone, Copy)]
pub struct NamedTexts<'a> {
    /// The domain file.
    pub domain: NamedText<'a>,
    /// The problem file.
    pub problem: NamedText<'a>,
    /// The plan file.
    pub plan: NamedText<'a>,
}

impl<'a> NamedTexts<'a> {
    ghost use Rattle.std.specs.Prelude.{◌≡◌};
    ghost use Rattle.explain_hints.specs.Files.{name_in, text_in};

    /// The bytes of a file.
    pub fn text(&self, file: File) -> &'a [u8]
        ensures { result.now ≡ text_in self.now file }
    {
        match file {
            File::Domain => self.domain.text,
            File::Problem => self.problem.text,
            File::Plan => self.plan.text,
        }
    }

    /// The name of a file.
    pub fn name(&self, file: File) -> &'a str
        ensures { result.now ≡ name_in self.now file }
    {
        match file {
            File::Domain => self.domain.name,
            File::Problem => self.problem.name,
            File::Plan => self.plan.name,
        }
    }
}

//! The stage of a reader: which line may come next.
ghost use Rattle.std.specs.Prelude.{◌≡◌, ℕ, ◌≤◌, IsTrue, List, length};
ghost use Rattle.certificate_definitions.specs.Certificates.{StateLine, has_basis};
ghost use Rattle.certificate_definitions.specs.CertificateText as text;
ghost use Rattle.certificate_definitions.specs.CertificateText.{WeightedAtom, swapped, atom, listed, is_line, longest_line};
ghost use Rattle.certificate_definitions.specs.CertificateMachine.{format_at, in_body, no_body, no_format};
ghost use Rattle.certificate_reader.specs.Lines.{mark_of, text_line_of, version_of};
ghost use Rattle.certificate_reader.specs.Parts.{counts_of, part_of};
ghost use Rattle.certificate_reader.specs.Stages.{IsReadAt, IsStep, IsWithin, body_of, format_of, place_of};

use crate::fault::{NextFault, TextFault};
use crate::format::Format;
use crate::line::{Basis, CertLine, MAX_ATOMS, MAX_STATE_LINES, MAX_SWAPS, Mark, Version};
use crate::parsing::parse;
use crate::part_line::{PartCounts, PartLine};
use std::alloc::Global;

/// The lines that may come next.
#[derive(Clone, Copy)]
pub(crate) enum Stage {
    /// The version.
    Version,
    /// The claim, in a text with this version.
    Claim(Version),
    /// The constants.
    Constants(Version),
    /// The lines after the constants.
    Body(Body),
    /// Nothing.
    Ended,
}

/// The lines after the constants so far: exchanges, then atoms (counted by the format), then parts, then states.
#[derive(Clone, Copy)]
pub(crate) struct Body {
    /// The form of lines.
    pub(crate) format: Format,
    /// The number of exchanges of objects.
    pub(crate) swaps: usize,
    /// The numbers of parts.
    pub(crate) parts: PartCounts,
    /// The number of states.
    pub(crate) states: usize,
}

impl Stage {
    /// The known form of lines. At stages where it does not matter, any will do.
    pub(crate) fn format(self) -> Format
        ensures { format_of result ≡ format_at (place_of self) }
    {
        match self {
            Stage::Claim(version) => no_format(version),
            Stage::Constants(version) => no_format(version),
            Stage::Body(body) => body.format,
            _ => no_format(Version::One),
        }
    }

    /// The stage after this line, or the fault of a line that is not allowed here.
    pub(crate) fn after(self, line: &CertLine) -> Result<Stage, TextFault>
        requires within { IsWithin (place_of self) }
        requires line { IsTrue (is_line (format_at (place_of self)) (text_line_of line.now)) }
        ensures { IsStep (place_of self) (text_line_of line.now) result }
    {
        match self {
            Stage::Version => match line {
                CertLine::Head(version) => Ok(Stage::Claim(*version)),
                _ => Err(TextFault::Form),
            },
            Stage::Claim(version) => match line {
                CertLine::Claim(_) => Ok(Stage::Constants(version)),
                _ => Err(TextFault::Form),
            },
            Stage::Constants(version) => match line {
                CertLine::Constant(constants) => Ok(Stage::Body(no_body(version, constants.len()))),
                _ => Err(TextFault::Form),
            },
            Stage::Body(body) => body.after(line),
            Stage::Ended => Err(TextFault::Form),
        }
    }
}

/// The format before the constants, of which there will be at least one.
fn no_format(version: Version) -> Format
    ensures { format_of result ≡ no_format (version_of version) }
{
    Format {
        version,
        weights: 1,
        atoms: 0,
    }
}

/// The stage right after this many constants.
fn no_body(version: Version, weights: usize) -> Body
    ensures { body_of result ≡ no_body (version_of version) weights }
{
    Body {
        format: Format {
            version,
            weights,
            atoms: 0,
        },
        swaps: 0,
        parts: PartCounts::none(),
        states: 0,
    }
}

impl Body {
    /// The stage after this line, or its fault.
    fn after(self, line: &CertLine) -> Result<Stage, TextFault>
        requires within { IsWithin (in_body (body_of self)) }
        requires line { IsTrue (is_line (format_of self.format) (text_line_of line.now)) }
        ensures { IsStep (in_body (body_of self)) (text_line_of line.now) result }
    {
        match line {
            CertLine::Swap { .. } => self.after_swap(),
            CertLine::Weight { .. } => self.after_atom(),
            CertLine::Part(part) => self.after_part(part),
            CertLine::Listed(line) => self.after_state(line.mark),
            CertLine::Last { count } => {
                if *count == self.states as u64 {
                    Ok(Stage::Ended)
                } else {
                    Err(TextFault::Form)
                }
            }
            _ => Err(TextFault::Form),
        }
    }

    /// The stage after an exchange of objects, or its fault. Exchanges come before everything else.
    fn after_swap(self) -> Result<Stage, TextFault>
        requires within { IsWithin (in_body (body_of self)) }
        ensures { (names : List (List ℕ)) → IsTrue (is_line (format_of self.format) (swapped names)) → IsStep (in_body (body_of self)) (swapped names) result }
    {
        if self.format.atoms > 0 || !self.parts.is_empty() || self.states > 0 {
            return Err(TextFault::Form);
        }
        if self.swaps >= MAX_SWAPS {
            return Err(TextFault::Limit);
        }
        Ok(Stage::Body(Body {
            format: self.format,
            swaps: self.swaps + 1,
            parts: self.parts,
            states: self.states,
        }))
    }

    /// The stage after an atom, or its fault.
    fn after_atom(self) -> Result<Stage, TextFault>
        requires within { IsWithin (in_body (body_of self)) }
        ensures { (a : WeightedAtom) → IsTrue (is_line (format_of self.format) (atom a)) → IsStep (in_body (body_of self)) (atom a) result }
    {
        if !self.parts.is_empty() || self.states > 0 {
            return Err(TextFault::Form);
        }
        if self.format.atoms >= MAX_ATOMS {
            return Err(TextFault::Limit);
        }
        Ok(Stage::Body(Body {
            format: Format {
                version: self.format.version,
                weights: self.format.weights,
                atoms: self.format.atoms + 1,
            },
            swaps: self.swaps,
            parts: self.parts,
            states: self.states,
        }))
    }

    /// The stage after a part, or its fault.
    fn after_part(self, part: &PartLine) -> Result<Stage, TextFault>
        requires within { IsWithin (in_body (body_of self)) }
        requires line { IsTrue (is_line (format_of self.format) (text.part (part_of part.now))) }
        ensures { IsStep (in_body (body_of self)) (text.part (part_of part.now)) result }
    {
        if self.states > 0 {
            return Err(TextFault::Form);
        }
        match self.parts.after(part) {
            Ok(parts) => Ok(Stage::Body(Body {
                format: self.format,
                swaps: self.swaps,
                parts,
                states: self.states,
            })),
            Err(fault) => Err(fault),
        }
    }

    /// The stage after a state with this mark, or its fault. The landmark value that it rests on has come.
    fn after_state(self, mark: Mark) -> Result<Stage, TextFault>
        requires within { IsWithin (in_body (body_of self)) }
        ensures { (l : StateLine) → l.mark ≡ mark_of mark → IsTrue (is_line (format_of self.format) (listed l)) → IsStep (in_body (body_of self)) (listed l) result }
    {
        if !self.has_basis(mark) {
            return Err(TextFault::Form);
        }
        if self.states >= MAX_STATE_LINES {
            return Err(TextFault::Limit);
        }
        Ok(Stage::Body(Body {
            format: self.format,
            swaps: self.swaps,
            parts: self.parts,
            states: self.states + 1,
        }))
    }

    /// Whether there is what a state with this mark rests on.
    fn has_basis(self, mark: Mark) -> bool
        ensures { result ≡ has_basis (counts_of self.parts).values (mark_of mark) }
    {
        match mark {
            Mark::Expanded => true,
            Mark::Cut { by, .. } | Mark::Dead { by } => match by {
                Basis::OfAll => true,
                Basis::Landmark(value) => (value as usize) < self.parts.values,
            },
        }
    }
}

/// Parses these bytes as a line at this stage, and returns it with the stage after it.
pub(crate) fn read_line(
    alloc: Global,
    stage: Stage,
    bytes: &[u8],
) -> Result<(CertLine, Stage), NextFault>
    requires within { IsWithin (place_of stage) }
    requires short { length bytes.now ≤ longest_line }
    ensures { IsReadAt (place_of stage) bytes.now result }
{
    match parse(alloc, bytes, stage.format()) {
        Ok(line) => match stage.after(&line) {
            Ok(next) => Ok((line, next)),
            Err(fault) => Err(NextFault::Text(fault)),
        },
        Err(fault) => match fault {
            NextFault::Text(TextFault::Version) => match stage {
                Stage::Version => Err(NextFault::Text(TextFault::Version)),
                _ => Err(NextFault::Text(TextFault::Form)),
            },
            _ => Err(fault),
        },
    }
}

//! The reader of a certificate's text, line by line.
ghost use Rattle.std.specs.Prelude.{◌≡◌, ◌+◌, ℕ, ◌++◌, [], ◌∷◌, Err, IfErr, IfOk, IfNone, IfSome, is_err, IsTrue, List, false, length, true};
ghost use Rattle.certificate_reader.specs.Lines.{text_line_of};
ghost use Rattle.certificate_definitions.specs.CertificateText.{TextLine, AreWhole};
ghost use Rattle.certificate_reader.specs.declared.reader.CertFault.TheVariants.{Failed};
ghost use Rattle.certificate_reader.specs.Reader.{CountsCert, HasRead, HaveBegun, IsAdvance, IsAnswer, fault_at, has_come, has_failed, lines_read, source_of, waits_in};
ghost use Rattle.certificate_reader.specs.Next.{CountsFault};

use crate::fault::{NextFault, TextFault};
use crate::line::CertLine;
use crate::next::{is_at_end, next_line};
use crate::position::Position;
use crate::stage::Stage;
use crate::waiting::Waiting;
use devices::Source;
use std::alloc::Global;

/// Why no line is returned.
#[derive(Clone, Copy, Debug, PartialEq, Eq)]
pub enum CertFault {
    /// The text is faulty: the fault and its line. It is the first faulty line.
    Line {
        /// The fault.
        code: TextFault,
        /// The line's number, from 1.
        line: u64,
    },
    /// The device failed.
    Device,
    /// An allocation failed.
    NoMemory,
    /// A fault was reported by an earlier call.
    Failed,
}

/// Reads the text of a certificate from a source, line by line.
#[derive(Drop)]
pub struct CertReader<R> {
    alloc: Global,
    source: R,
    waiting: Waiting,
    position: Position,
    failed: bool,
}

impl<R: Source> CertReader<R> {
    /// A reader of the text that the source gives from its current position.
    pub fn new(alloc: Global, source: R) -> CertReader<R>
        ensures source { source_of result ≡ source }
        ensures read { HasRead result [] }
        ensures waits { waits_in result ≡ [] }
        ensures failed { has_failed result ≡ false }
    {
        CertReader {
            alloc,
            source,
            waiting: Waiting::new(alloc),
            position: Position {
                lines: 0,
                stage: Stage::Version,
            },
            failed: false,
        }
    }

    /// The number of lines returned.
    pub fn lines(&self) -> u64
        ensures { result ≡ lines_read self.now }
    {
        self.position.lines
    }

    /// The source, as far as it has been read.
    pub fn into_source(self) -> R
        ensures { result ≡ source_of self }
    {
        self.source
    }

    /// The next line; `None` after the last line, if nothing follows it. The source is read only until a whole line is buffered,
    /// or after the last line until there is a byte or the end of the source.
    ///
    /// # Errors
    /// [`CertFault::Line`] if the text is faulty; [`CertFault::Device`] if the device failed; [`CertFault::NoMemory`] if an
    /// allocation failed; after any of these, [`CertFault::Failed`].
    pub fn next_line(&mut self) -> Result<Option<CertLine>, CertFault>
        // What is returned or reported, if these lines were returned before.
        ensures reported { (before : List TextLine) → HasRead self.old before → has_failed self.old ≡ false
            → IsAnswer R.remaining self.old self.new before result }
        // The lines returned are a prefix of a certificate, and so are the lines before the first faulty one.
        ensures begins { (before : List TextLine) → HasRead self.old before → has_failed self.old ≡ false → HaveBegun before result }
        ensures failed { has_failed self.new ≡ is_err result }
        ensures still { has_failed self.old ≡ true → (result ≡ Err Failed) × (self.new ≡ self.old) }
        // The source is not touched if the result is determined by the buffer.
        ensures lazy { IsTrue (has_come self.old) → source_of self.new ≡ source_of self.old }
        ensures failures { CountsCert (R.failures (source_of self.old)) (R.failures (source_of self.new)) result }
    {
        if self.failed {
            return Err(CertFault::Failed);
        }
        let line = self.position.lines.saturating_add(1);
        match self.advance() {
            Ok(read) => Ok(read),
            Err(fault) => {
                self.failed = true;
                Err(reported_at(fault, line))
            }
        }
    }

    /// The next line, and the position after it.
    fn advance(&mut self) -> Result<Option<CertLine>, NextFault>
        ensures reported { (before : List TextLine) → HasRead self.old before → IsAdvance R.remaining self.old self.new before result }
        ensures failed { has_failed self.new ≡ has_failed self.old }
        ensures lazy { IsTrue (has_come self.old) → source_of self.new ≡ source_of self.old }
        ensures failures { CountsFault (R.failures (source_of self.old)) (R.failures (source_of self.new)) result }
    {
        if let Stage::Ended = self.position.stage {
            if is_at_end(&mut self.waiting, &mut self.source)? {
                return Ok(None);
            }
            return Err(NextFault::Text(TextFault::Form));
        }
        let (line, stage) = next_line(
            self.alloc,
            self.position.stage,
            &mut self.waiting,
            &mut self.source,
        )?;
        self.position = Position {
            lines: self.position.lines.saturating_add(1),
            stage,
        };
        Ok(Some(line))
    }
}

/// The fault as reported for this line.
fn reported_at(fault: NextFault, line: u64) -> CertFault
    ensures { result ≡ fault_at fault line }
{
    match fault {
        NextFault::Text(code) => CertFault::Line { code, line },
        NextFault::Device => CertFault::Device,
        NextFault::NoMemory => CertFault::NoMemory,
    }
}

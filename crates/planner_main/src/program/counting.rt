//! Writing a file and counting its bytes.
ghost use Rattle.std.specs.Prelude.{◌≡◌, ◌≢◌, ◌++◌, ◌-◌, ◌^◌, ℕ, List, min, length, IfOk, IsTrue, OnOk, Some, []};
ghost use Rattle.devices.specs.Devices.{CountsDevice};
ghost use Rattle.devices.specs.Written.{HoldsBeginning};
ghost use Rattle.std.proofs.Props.{props};

mod history;

use devices::{Document, Files, IoFault, Sink};
use history::{History, Piece};

/// The number of bytes written, and in proofs the bytes themselves. The count saturates at 18446744073709551615.
#[derive(Drop)]
struct Tally {
    history: History,
    count: u64,
    ghost counted: { count ≡ min (length history.bytes) (2 ^ 64 - 1) },
}

impl Tally {
    fn new() -> Tally
        ensures { result.history.bytes ≡ [] }
    {
        Tally {
            history: History::new(),
            count: 0,
        }
    }

    /// The tally after these further bytes.
    fn with(&self, bytes: &[u8]) -> Tally
        ensures { result.history.bytes ≡ self.now.history.bytes ++ bytes.now }
    {
        let piece = Piece { bytes };
        Tally {
            history: self.history.with(&piece),
            count: self.count.saturating_add(bytes.len() as u64),
        }
    }
}

/// A file written from its first byte, with a tally of what it has taken. No clause describes the content of a machine's file,
/// except that it is what was tallied; so the content is known for every file written through this sink.
#[derive(Drop)]
struct Counted<F: Files> {
    output: F::Output,
    tally: Tally,
    ghost same: { IsTrue F.is_known → F.Output.taken output ≡ Some tally.history.bytes } by { Prim.hlevel props },
}

impl<F: Files> Sink for Counted<F> {
    ghost failures = { λ counted. F.Output.failures counted.output };

    ghost taken = { λ counted. Some counted.tally.history.bytes };

    ghost may_lack_memory = { F.Output.may_lack_memory };

    ghost name = { λ counted. F.Output.name counted.output };

    fn write(&mut self, piece: &[u8]) -> Result<usize, IoFault> {
        match self.output.write(piece) {
            Ok(count) => {
                self.tally = self.tally.with(&piece[..count]);
                Ok(count)
            }
            Err(fault) => Err(fault),
        }
    }
}

/// Writes this document to the file with this name, replacing its contents, and returns its size in bytes, which saturates at
/// 18446744073709551615. It is a device failure if the file cannot be created or a write of it fails: then the file is unchanged,
/// or holds a prefix of the document.
pub(super) fn write_counted<F: Files, D: Document>(
    files: &mut F,
    name: &str,
    document: &D,
) -> Result<u64, IoFault>
    ensures held { IsTrue F.is_known → OnOk result (F.contents files.new name.now ≡ Some (D.text document.now)) }
    ensures partly { IsTrue F.is_known → HoldsBeginning (F.contents files.old name.now) (F.contents files.new name.now) (D.text document.now) }
    ensures kept { IsTrue F.is_known → (other : List ℕ) → other ≢ name.now → F.contents files.new other ≡ F.contents files.old other }
    ensures failures { CountsDevice (F.failures files.old) (F.failures files.new) result }
    ensures counted { IfOk result (λ count. count ≡ min (length (D.text document.now)) (2 ^ 64 - 1)) }
{
    let output = files.create(name)?;
    let mut counted = Counted::<F> {
        output,
        tally: Tally::new(),
    };
    let written = document.write_to(&mut counted);
    let Counted { output, tally, .. } = counted;
    // Closed first, since closing counts a failed write.
    files.close(output)?;
    match written {
        Ok(()) => Ok(tally.count),
        Err(fault) => Err(fault),
    }
}

//! Files by name, those of the machine, and how texts are read and written.
ghost use Rattle.std.specs.Prelude.{◌≡◌, ◌≢◌, ℕ, ◌<◌, Bool, false, List, [], Option, None, Some, Err, IfOk, IfSome, IsTrue, OnErr, OnOk};
ghost use Rattle.devices.specs.declared.device.IoFault.TheVariants.{Device};
ghost use Rattle.devices.specs.Devices.{CountsDevice, IsKept, one_more};
ghost use Rattle.devices.specs.Written.{HoldsBeginning};

mod reading;
mod system;
mod writing;

use crate::device::{IoFault, Sink, Source};
pub use reading::read_file;
pub use system::SystemFiles;
pub use writing::{Bytes, Document};

/// Files by name. A name that cannot be opened or created counts as a failure, and so does a file with a failed write.
pub trait Files {
    /// A file open for reading.
    type Input: Source + Drop;

    /// A file open for writing.
    type Output: Sink + Drop;

    /// How often a call has failed. The count saturates at 18446744073709551615.
    ghost failures: { Self → ℕ };

    /// The bytes of the file with a name, if they are known.
    ghost contents: { Self → List ℕ → Option (List ℕ) } = { λ _ _. None };

    /// Whether there is no file with a name, if that is known.
    ghost is_missing: { Self → List ℕ → Bool } = { λ _ _. false };

    /// Whether the first read of the file with a name fails, if that is known.
    ghost is_unreadable: { Self → List ℕ → Bool } = { λ _ _. false };

    /// Whether the bytes of files that are written here are known.
    ghost is_known: { Bool } = { false };

    /// Opens the file with this name for reading, from its first byte. No read of it has failed yet.
    fn open(&mut self, name: &str) -> Result<Self::Input, IoFault>
        ensures failures { CountsDevice (failures self.old) (failures self.new) result }
        ensures missing { IsTrue (is_missing self.old name.now) → result ≡ Err Device }
        ensures fresh { IfOk result (λ input. Self.Input.failures input ≡ 0) }
        ensures bytes { IfOk result (λ input. IsKept (contents self.old name.now) (Self.Input.remaining input)) }
        ensures failing { IsTrue (is_unreadable self.old name.now) → IfOk result (λ input. IsTrue (Self.Input.is_failing input)) }
        ensures kept { (other : List ℕ) → contents self.new other ≡ contents self.old other }
        ensures still { (other : List ℕ) → is_missing self.new other ≡ is_missing self.old other }
        ensures as_readable { (other : List ℕ) → is_unreadable self.new other ≡ is_unreadable self.old other };

    /// Ends the reading of a file. A file with failed reads counts as one failure.
    fn finish(&mut self, input: Self::Input)
        ensures unfailed { Self.Input.failures input ≡ 0 → failures self.new ≡ failures self.old }
        ensures failed { 0 < Self.Input.failures input → failures self.new ≡ one_more (failures self.old) }
        ensures kept { (other : List ℕ) → contents self.new other ≡ contents self.old other }
        ensures still { (other : List ℕ) → is_missing self.new other ≡ is_missing self.old other }
        ensures as_readable { (other : List ℕ) → is_unreadable self.new other ≡ is_unreadable self.old other };

    /// Creates an empty file with this name, replacing any that is there, and opens it for writing. No write of it has failed
    /// yet. Until it is closed, the file is unchanged or empty. All other files are unchanged, and if the call is refused, every
    /// file is.
    fn create(&mut self, name: &str) -> Result<Self::Output, IoFault>
        ensures failures { CountsDevice (failures self.old) (failures self.new) result }
        ensures fresh { IfOk result (λ output. Self.Output.failures output ≡ 0) }
        ensures named { IsTrue is_known → IfOk result (λ output. Self.Output.name output ≡ name.now) }
        ensures empty { IsTrue is_known → IfOk result (λ output. Self.Output.taken output ≡ Some []) }
        ensures made { HoldsBeginning (contents self.old name.now) (contents self.new name.now) [] }
        ensures kept { (other : List ℕ) → other ≢ name.now → contents self.new other ≡ contents self.old other }
        ensures refused { OnErr result (contents self.new name.now ≡ contents self.old name.now) };

    /// Ends the writing of a file. A file with a failed write counts as a failure. If contents are known, the file then holds
    /// what was written; for the machine's files, std loses an error that the system reports only at close. If the call fails,
    /// the file is unchanged or holds a prefix of what was written. All other files are unchanged.
    fn close(&mut self, output: Self::Output) -> Result<(), IoFault>
        ensures failures { CountsDevice (failures self.old) (failures self.new) result }
        ensures failed { 0 < Self.Output.failures output → result ≡ Err Device }
        ensures written { IsTrue is_known → OnOk result (contents self.new (Self.Output.name output) ≡ Self.Output.taken output) }
        ensures beginning { IsTrue is_known → IfSome (Self.Output.taken output) (HoldsBeginning (contents self.old (Self.Output.name output)) (contents self.new (Self.Output.name output))) }
        ensures kept { IsTrue is_known → (other : List ℕ) → other ≢ Self.Output.name output → contents self.new other ≡ contents self.old other };
}

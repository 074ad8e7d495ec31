//! Reading the text of a file.
ghost use Rattle.std.specs.Prelude.{◌≡◌, ◌+◌, ℕ, Err, IfOk, IsErr, IsTrue, List, length, vec_len};
ghost use Rattle.devices.specs.Texts.{AreKept, IsText};
ghost use Rattle.devices.specs.declared.device.IoFault.TheVariants.{Device};
ghost use Rattle.devices.specs.Devices.{CountsDevice, IsReading, ReadsSome};

use crate::device::{IoFault, Source};
use crate::files::Files;
use std::alloc::{AllocError, Global};

/// The maximum number of bytes read of a file: one more than a text may have.
const MAX_READ: usize = 16_777_217;

/// The number of bytes requested at a time.
const PIECE: usize = 65_536;

/// The first 16,777,217 bytes of a file, or all if it has fewer. It is a device failure if the file cannot be opened or a read of
/// it fails.
pub fn read_file<F: Files>(alloc: Global, files: &mut F, name: &str) -> Result<Vec<u8>, IoFault>
    ensures bytes { IfOk result (λ text. IsText (F.contents files.old) name.now text.items) }
    ensures kept { AreKept (F.contents files.old) (F.contents files.new) }
    ensures still { (other : List ℕ) → F.is_missing files.new other ≡ F.is_missing files.old other }
    ensures as_readable { (other : List ℕ) → F.is_unreadable files.new other ≡ F.is_unreadable files.old other }
    ensures failures { CountsDevice (F.failures files.old) (F.failures files.new) result }
    ensures missing { IsTrue (F.is_missing files.old name.now) → result ≡ Err Device }
    ensures failing { IsTrue (F.is_unreadable files.old name.now) → IsErr result }
{
    let mut input = files.open(name)?;
    let text = read_text(alloc, &mut input);
    files.finish(input);
    text
}

/// The first 16,777,217 bytes of a source, or all if it has fewer.
fn read_text<S: Source>(alloc: Global, source: &mut S) -> Result<Vec<u8>, IoFault>
    ensures ok { IfOk result (λ text. IsReading MAX_READ (S.remaining source.old) (S.remaining source.new) text.items) }
    ensures failing { IsTrue (S.is_failing source.old) → IsErr result }
    ensures failures { CountsDevice (S.failures source.old) (S.failures source.new) result }
{
    let mut text = Vec::new(alloc);
    let mut piece = buffer(alloc, PIECE)?;
    'reads: while text.len() < MAX_READ {
        let room = PIECE.min(MAX_READ - text.len());
        let count = read_some(source, &mut piece[..room], &mut text)?;
        if count == 0 {
            break;
        }
    }
    Ok(text)
}

/// Reads once, appending to the text, and returns how many bytes came.
fn read_some<S: Source>(
    source: &mut S,
    room: &mut [u8],
    text: &mut Vec<u8>,
) -> Result<usize, IoFault>
    ensures ok { IfOk result (λ count. ReadsSome (length room.old) count (S.remaining source.old) (S.remaining source.new) text.old.items text.new.items) }
    ensures len { IfOk result (λ count. vec_len text.new ≡ vec_len text.old + count) }
    ensures failing { IsTrue (S.is_failing source.old) → IsErr result }
    ensures failures { CountsDevice (S.failures source.old) (S.failures source.new) result }
{
    let count = source.read(room)?;
    text.extend_from_slice(&room[..count])?;
    Ok(count)
}

/// A buffer for reading.
fn buffer(alloc: Global, length: usize) -> Result<Vec<u8>, AllocError>
    ensures { IfOk result (λ room. vec_len room ≡ length) }
{
    vec![in alloc; 0u8; length]
}

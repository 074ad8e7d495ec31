//! The progress line of a certificate that has been read.
ghost use Rattle.std.specs.Prelude.{◌≡◌, IfOk, length};
ghost use Rattle.std.specs.String.{string_bytes};
ghost use Rattle.certificate.specs.Certificate.{certificate_of};
ghost use Rattle.cert_checker.specs.CheckProgress.{whole_line};
ghost use Rattle.devices.specs.Progress.{AreSaid, stream};

use certificate::Cert;
use devices::{Sink, say_line};
use std::alloc::{AllocError, Global};

/// Reports the certificate's numbers of atoms and listed states. If memory for the line is refused, nothing is reported.
pub(crate) fn say_whole<E: Sink>(alloc: Global, cert: &Cert, err: &mut E)
    ensures { AreSaid (λ line. line ≡ whole_line (length (certificate_of cert.now).atoms) (length (certificate_of cert.now).lines)) E.may_lack_memory (stream (E.failures err.old) (E.taken err.old)) (stream (E.failures err.new) (E.taken err.new)) }
{
    if let Ok(line) = whole_line(alloc, cert.atoms().len(), cert.line_count()) {
        say_line(err, line.as_bytes());
    }
}

fn whole_line(alloc: Global, atoms: usize, listed: usize) -> Result<String, AllocError>
    ensures { IfOk result (λ line. string_bytes line ≡ whole_line atoms listed) }
{
    format!(in alloc; "progress=judge atoms={atoms} listed={listed}\n")
}

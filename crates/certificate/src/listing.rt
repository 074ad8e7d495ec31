//! The states of state lines.
ghost use Rattle.std.specs.Prelude.{◌≡◌, ◌≤◌, All, IfNone, IfOk, IfSome, IsTrue, length, map};
ghost use Rattle.packed_state.specs.PooledView.{pooled_states};
ghost use Rattle.certificate_definitions.specs.Certificates as certificates;
ghost use Rattle.certificate_definitions.specs.Certificates.{rise};
ghost use Rattle.certificate_reader.specs.Lines.{line_of};
ghost use Rattle.certificate_reader.specs.declared.line.TheConstants.{MAX_STATE_LINES};
ghost use Rattle.certificate.specs.CertificateParts.{listed_of};
ghost use Rattle.certificate.specs.ListedSets.{lines_with};
ghost use Rattle.certificate.specs.Listing.{ListOnce};

use crate::states::States;
use certificate_reader::StateLine;
use faults::NoMemory;
use std::alloc::Global;

/// The states that the lines list, in order, over this many atoms; `None` if one is listed twice.
pub(crate) fn states_of(
    alloc: Global,
    atom_count: u32,
    lines: &[StateLine],
) -> Result<Option<States>, NoMemory>
    requires rising { All (λ (line : certificates.StateLine). IsTrue (rise atom_count 0 line.atoms)) (map line_of lines.now) }
    requires few { length lines.now ≤ MAX_STATE_LINES }
    ensures lines { IfOk result (λ made. IfSome made (λ states. lines_with (map listed_of states.marks.items) (pooled_states states.sets) ≡ map line_of lines.now)) }
    ensures marked { IfOk result (λ made. IfSome made (λ states. length states.marks.items ≡ length (pooled_states states.sets))) }
    ensures once { IfOk result (λ made. IfSome made (λ states. ListOnce (map line_of lines.now))) }
    ensures twice { IfOk result (λ made. IfNone made (¬ ListOnce (map line_of lines.now))) }
{
    let mut states = States::new(alloc, atom_count)?;
    for line in lines {
        if !states.push(alloc, line)? {
            return Ok(None);
        }
    }
    Ok(Some(states))
}

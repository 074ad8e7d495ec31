//! The certificate of a search: a line for each found state, and the values that guided the search. A line is open if its state was
//! expanded, dead if it is reported dead, and a cut if it waits.
//!
//! Optimality certificates of planners are from Mugdan, Christen and Eriksson, "Optimality Certificates for Classical Planning" (ICAPS
//! 2023). The form differs: here a certificate lists single states, each with the cost at which it was reached. The successors of an
//! open line are listed, at no more than their cost from there. A cut is not expanded: its value, the greatest of the certificate's fair
//! values, is a lower bound of the remaining cost. From a dead line's state no plan leads on, as a dead-fair value shows. With
//! exchanges of objects, a state with the same representative may be listed in a successor's place.
ghost use Rattle.std.specs.Prelude.{◌≡◌, ◌≤◌, List, length, map, IfOk, IsTrue};
ghost use Rattle.task.specs.TaskParts.{atom_of};
ghost use Rattle.packed_state.specs.PooledView.{pooled_states};
ghost use Rattle.search_spaces.specs.GroundListing.{listed_states, listed_width};
ghost use Rattle.certificate_reader.specs.Lines.{claim_of};
ghost use Rattle.certificate.specs.Certificate.{certificate_of};
ghost use Rattle.certificate.specs.CertificateParts.{certificate_with_lines};
ghost use Rattle.certificate_reader.specs.declared.line.TheConstants.{MAX_ATOMS, MAX_STATE_LINES};
ghost use Rattle.search.specs.Outcome.{AreFound};
ghost use Rattle.grounding.specs.Ground.{task_in, atoms_in};
ghost use Rattle.solver.specs.Guidance.{estimate_by, reports_dead, version_by, CanBeWritten};
ghost use Rattle.solver.specs.Guided.{AreMarksOf};
ghost use Rattle.search_spaces.specs.SearchSpace.{class_in, ground_in, exchanges_in, system_of, IsSearchSpace};
ghost use Rattle.solver.specs.Listing.{certificate_by, found_certificate};
ghost use Rattle.solver.specs.Written.{guidance_of};
ghost use Rattle.model.specs.NumberedAtoms.{are_distinct};
ghost use Rattle.certificate_definitions.specs.Certificates.{StateLine, is_claim, are_exchanges};

use crate::guidance::Guidance;
use certificate::{Cert, Claim, Header, Listed, States};
use faults::NoMemory;
use formulas::Atom;
use indexmap::IndexSet;
use packed_state::{Packed, PooledStore, StateStore};
use search::{FoundStates, OwnClasses, StateListing};
use search_spaces::{GroundListing, SearchSpace};
use std::alloc::Global;

/// The certificate of a search by this guidance, which found these states and marked them so.
pub(crate) fn cert_of(
    alloc: Global,
    space: SearchSpace<'_, '_>,
    guidance: Guidance,
    claim: Claim,
    marks: Vec<Listed>,
    found: FoundStates<GroundListing<'_, '_>>,
) -> Result<Cert, NoMemory>
    requires claim { IsTrue (is_claim (claim_of claim)) }
    requires guidance { CanBeWritten (length (atoms_in (ground_in space))) (guidance_of guidance) }
    requires space { IsSearchSpace space }
    requires exchanges { IsTrue (are_exchanges (version_by (guidance_of guidance)) (exchanges_in space)) }
    requires few { length (atoms_in (ground_in space)) ≤ MAX_ATOMS }
    requires marks { AreMarksOf (estimate_by (guidance_of guidance)) (reports_dead (guidance_of guidance)) found marks.items }
    requires found { AreFound (system_of space) (class_in space) (estimate_by (guidance_of guidance)) (reports_dead (guidance_of guidance)) (claim_of claim) MAX_STATE_LINES (listed_states found.store) found.nodes.items }
    ensures { IfOk result (λ cert. certificate_of cert ≡ found_certificate (claim_of claim) (exchanges_in space.entry) (atoms_in (ground_in space.entry)) (guidance_of guidance) (listed_states found.entry.store) found.entry.nodes.items) }
{
    let states = states_of(alloc, marks, found)?;
    let header = header_of(alloc, space, guidance, claim)?;
    Ok(Cert::from_parts(header, states))
}

/// The header of the certificate of a search by this guidance.
fn header_of(
    alloc: Global,
    space: SearchSpace<'_, '_>,
    guidance: Guidance,
    claim: Claim,
) -> Result<Header, NoMemory>
    requires { IsSearchSpace space }
    ensures { IfOk result (λ header. (lines : List StateLine) → certificate_with_lines header lines
        ≡ certificate_by (claim_of claim) (exchanges_in space.entry) (atoms_in (ground_in space.entry)) (guidance_of guidance) lines) }
{
    let version = guidance.version();
    let evidence = guidance.into_evidence(alloc)?;
    let names = copied(alloc, space.ground().atoms().as_slice())?;
    Ok(Header {
        version,
        claim,
        exchanges: space.written_exchanges(alloc)?,
        atoms: names,
        evidence,
    })
}

/// The found states, with these marks.
fn states_of(
    alloc: Global,
    marks: Vec<Listed>,
    found: FoundStates<GroundListing<'_, '_>>,
) -> Result<States, NoMemory>
    requires { length (listed_states found.store) ≤ MAX_STATE_LINES }
    ensures marks { IfOk result (λ states. states.marks.items ≡ marks.items) }
    ensures sets { IfOk result (λ states. pooled_states states.sets ≡ listed_states found.entry.store) }
{
    let sets = sets_of(alloc, found.store)?;
    Ok(States { marks, sets })
}

/// The listed states in order, as a certificate has them. If each state is a class of its own, the search's store becomes the
/// certificate's, and no state is copied.
pub(crate) fn sets_of(
    alloc: Global,
    listing: GroundListing<'_, '_>,
) -> Result<PooledStore, NoMemory>
    requires { length (listed_states listing) ≤ MAX_STATE_LINES }
    ensures { IfOk result (λ sets. pooled_states sets ≡ listed_states listing.entry) }
{
    match listing {
        GroundListing::Alone(OwnClasses(sets)) => Ok(sets),
        GroundListing::Orbits(orbits) => copied_sets(alloc, &orbits),
    }
}

/// A copy of the listed states, in order.
fn copied_sets<L: StateListing>(alloc: Global, listing: &L) -> Result<PooledStore, NoMemory>
    requires { length (L.states listing.now) ≤ MAX_STATE_LINES }
    ensures { IfOk result (λ sets. pooled_states sets ≡ L.states listing.now) }
{
    let mut sets = PooledStore::new(alloc, listing.width())?;
    let mut state = Packed::empty(alloc, listing.width())?;
    for place in 0..listing.len() {
        listing.get(place as u32, &mut state);
        sets.insert_copy_if_new(&state)?;
    }
    Ok(sets)
}

/// A copy of these distinct atoms, in order.
pub(crate) fn copied(alloc: Global, atoms: &[Atom]) -> Result<IndexSet<Atom>, NoMemory>
    requires { IsTrue (are_distinct (map atom_of atoms.now)) }
    ensures { IfOk result (λ copy. map atom_of copy.keys ≡ map atom_of atoms.now) }
{
    let mut copy = IndexSet::with_capacity(alloc, atoms.len())?;
    for atom in atoms {
        copy.insert(atom.clone()?)?;
    }
    Ok(copy)
}

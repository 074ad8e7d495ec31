//! Laws of all certificates for all tasks. The functions do nothing; their contracts are the laws.
ghost use Rattle.std.specs.Prelude.{◌≡◌, IsTrue, List, [], Option};
ghost use Rattle.model.specs.Task.{Task, Instance};
ghost use Rattle.model.specs.Runs.{Solves};
ghost use Rattle.model.specs.Meaning.{system_of};
ghost use Rattle.model.specs.Claims.{AreDeadEnds, ClaimHolds, IsLowerBound};
ghost use Rattle.model.specs.WellTyped.{is_task};
ghost use Rattle.certificate_definitions.specs.CertificateExamples.{AreJudged};
ghost use Rattle.certificate_definitions.specs.ExchangeExamples.{AreExchangesJudged};
ghost use Rattle.certificate_definitions.specs.Certificates.{Certificate, is_dead_end_of, lines_of, value_of, IsClosedFor, keeps_limits};
ghost use Rattle.symmetries_definitions.specs.Orbits.{AreOfOneOrbit};
ghost use Rattle.certificate_definitions.specs.CertificateRefusals.{IsPlanWithin};
ghost use Rattle.certificate_definitions.specs.CertificateNames.{IsTextOf, are_atoms_of, are_exchanges_of, certificate_text, has_atom_names};
ghost use Rattle.certificate_definitions.specs.CertificateChecking.{IsAccepted};
ghost use Rattle.cert_checker.specs.Exchanged.{are_short};
ghost use Rattle.cert_checker.specs.OnListing.{StaysListed};

/// The claim of a certificate closed for a well-typed task holds for all lists of instances, of any length. Its value of a
/// reachable state is a lower bound on the remaining cost. From a reachable state that is a dead end by it, no list leads to the
/// goal.
pub fn closed_claim_holds()
    ensures claim { (task : Task) (c : Certificate) → IsTrue (is_task task) → IsClosedFor task c → ClaimHolds (system_of task) c.claim }
    ensures values { (task : Task) (c : Certificate) → IsClosedFor task c → IsLowerBound (system_of task) (value_of task c) }
    ensures dead_ends { (task : Task) (c : Certificate) → IsClosedFor task c → AreDeadEnds (system_of task) (is_dead_end_of task c) }
{}

/// The reason: for each state that a solving list goes through, an expanded state of its class is listed at no more than the cost so
/// far, up to the list's end or to a state in the class of a cut; none is in the class of a dead end. At the cut, the list's cost is
/// at least the line's cost and bound together. Without exchanges the states are listed themselves.
pub fn solving_list_stays_listed()
    ensures stays { (task : Task) (c : Certificate) (plan : List Instance) → IsTrue (is_task task) → IsClosedFor task c
        → Solves (system_of task) plan → StaysListed (system_of task) (AreOfOneOrbit (system_of task)) (lines_of task c) plan }
    ensures alone { (task : Task) (c : Certificate) (plan : List Instance) → c.exchanges ≡ [] → IsClosedFor task c
        → Solves (system_of task) plan → StaysListed (system_of task) (λ s r. s ≡ r) (lines_of task c) plan }
{}

/// Worked examples: small certificates that are closed, or what is wrong with them; some with exchanges.
pub fn examples_are_judged()
    ensures judged { AreJudged }
    ensures exchanges { AreExchangesJudged }
{}

/// The text written for a certificate reads back as the certificate, if the task is well-typed, the certificate is within the
/// limits, its exchanges are of the task's objects, and no line is too long.
pub fn written_certificates_read_back()
    ensures { (task : Task) (c : Certificate) → IsTrue (is_task task) → IsTrue (has_atom_names task) → IsTrue (are_atoms_of task c)
        → IsTrue (are_exchanges_of task c) → IsTrue (are_short task c) → IsTrue (keeps_limits c) → IsTextOf task (certificate_text task c) c }
{}

/// If the certificate is also closed for the task, its text is accepted with any plan within its claim.
pub fn closed_certificates_are_accepted()
    ensures { (task : Task) (c : Certificate) (plan : Option (List Instance)) → IsTrue (is_task task) → IsTrue (has_atom_names task)
        → IsTrue (are_exchanges_of task c) → IsTrue (are_short task c) → IsTrue (keeps_limits c) → IsClosedFor task c → IsPlanWithin task c.claim plan → IsAccepted task (certificate_text task c) plan }
{}

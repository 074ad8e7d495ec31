//! Laws of the tasks read from files, and of the certificates that the program writes and reads, proved. The functions do
//! nothing.
ghost use Rattle.std.specs.Prelude.{◌≡◌, ℕ, [], IsTrue, List, None, Option};
ghost use Rattle.model.specs.Task.{Task, Instance};
ghost use Rattle.model.specs.Files.{IsTaskOf};
ghost use Rattle.model.specs.Claims.{Claim};
ghost use Rattle.model.specs.Limits.{max_numbered_atoms};
ghost use Rattle.model.specs.Grounding.{exceeded_limit};
ghost use Rattle.model.specs.WellTyped.{is_task};
ghost use Rattle.certificate_definitions.specs.Certificates.{Certificate};
ghost use Rattle.certificate_definitions.specs.CertificateRefusals.{IsPlanWithin};
ghost use Rattle.certificate_definitions.specs.CertificateNames.{IsTextOf, certificate_text};
ghost use Rattle.certificate_definitions.specs.CertificateChecking.{IsAccepted};
ghost use Rattle.certificate.specs.declared.cert.Cert.{Cert};
ghost use Rattle.certificate.specs.Certificate.{certificate_of};
ghost use Rattle.cert_checker.specs.declared.checker.Accepted.TheVariants.{AtLeast};
ghost use Rattle.solver.specs.declared.answer.Answer.TheVariants.{Unknown};
ghost use Rattle.solver.specs.declared.answer.Exceeded.TheVariants.{States, Time};
ghost use Rattle.solver.specs.Listing.{IsShownBy};
ghost use Rattle.solver.specs.Solver.{IsTrueAnswer};
ghost use Rattle.file_answers.specs.Checked.{IsAcceptedAs};

/// Tasks read from files are well-typed, including their formulas and effects.
pub fn tasks_of_files_are_well_typed()
    ensures { (domain problem : List ℕ) (task : Task) → IsTaskOf domain problem task → IsTrue (is_task task) }
{}

/// The written text of an answer's certificate, for a task read from files, reads back as this certificate, and `check` accepts
/// it, with or without the answer's plan, if its limit of instances is as large.
pub fn solved_certificates_are_accepted()
    ensures accepted { (domain problem : List ℕ) (task : Task) (claim : Claim) (c : Certificate) (most_states most : ℕ) (plan : Option (List Instance))
        → IsTaskOf domain problem task → IsShownBy task claim most_states c
        → exceeded_limit most max_numbered_atoms task [] ≡ None → IsPlanWithin task claim plan
        → IsTextOf task (certificate_text task c) c × IsAccepted task (certificate_text task c) plan
        × (exceeded_limit most max_numbered_atoms task c.atoms ≡ None) }
    // The certificate for an exceeded state limit is accepted with its claim, which is true: every plan costs at least the bound.
    ensures at_a_limit { (domain problem : List ℕ) (task : Task) (seconds : Option ℕ) (states instances least : ℕ) (cert : Cert)
        → IsTaskOf domain problem task → IsTrueAnswer task seconds states instances (Unknown (States least cert))
        → IsAcceptedAs task (certificate_text task (certificate_of cert)) None instances (AtLeast least) }
    // So is the certificate where the time is over.
    ensures in_time { (domain problem : List ℕ) (task : Task) (seconds : Option ℕ) (states instances least : ℕ) (cert : Cert)
        → IsTaskOf domain problem task → IsTrueAnswer task seconds states instances (Unknown (Time least cert))
        → IsAcceptedAs task (certificate_text task (certificate_of cert)) None instances (AtLeast least) }
{}

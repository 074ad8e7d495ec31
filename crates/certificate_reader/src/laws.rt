//! Laws of certificate texts, proved. The functions do nothing.
ghost use Rattle.std.specs.Prelude.{◌≡◌, ℕ, List};
ghost use Rattle.certificate_definitions.specs.CertificateText.{NamedCertificate, IsCertificateText};
ghost use Rattle.certificate_definitions.specs.CertificateTextExamples.{AreTextsJudged};

/// A certificate has at most one text, and a text is at most one certificate.
pub fn texts_are_certificates_one_for_one()
    ensures one_text { (text other : List ℕ) (c : NamedCertificate) → IsCertificateText text c → IsCertificateText other c → text ≡ other }
    ensures one_certificate { (text : List ℕ) (c d : NamedCertificate) → IsCertificateText text c → IsCertificateText text d → c ≡ d }
{}

/// The worked examples of lines: where each may occur, and the faults of others.
pub fn text_examples_are_judged()
    ensures { AreTextsJudged }
{}

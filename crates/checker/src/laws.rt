//! A law about upgraded tables.
ghost use Rattle.std.specs.Prelude.{◌↔◌, ◌≡◌, List};
ghost use Rattle.{machine.specs.Layout.{Layout, upgraded}, policy.specs.Domain.EdgeTest};
ghost use Rattle.verdict.specs.{declared.denial.Denial.Denial, Verdict.Breaks};
ghost use Rattle.certificate.specs.{declared.line.Line.Line, Certificate.certificate_text, Right.right_certificate};

/// A law: an upgraded table keeps its verdict with each policy, its certificate, and the texts of
/// certificates, which don't depend on the version.
pub fn upgraded_tables_are_judged_alike()
    ensures verdict { (t : Layout) (allowed : EdgeTest) (denial : Denial)
        → Breaks (upgraded t) allowed denial ↔ Breaks t allowed denial }
    ensures certificate { (t : Layout) → right_certificate (upgraded t) ≡ right_certificate t }
    ensures text { (t : Layout) (lines : List Line)
        → certificate_text (upgraded t) lines ≡ certificate_text t lines }
{}

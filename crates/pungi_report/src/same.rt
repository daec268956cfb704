ghost use Rattle.std.specs.Prelude.{◌≡◌, ℕ, List};
ghost use Rattle.std.specs.List.{All, AllZip};
ghost use Rattle.pungi_base.specs.declared.names.Name.{Name};
ghost use Rattle.pungi_base.specs.declared.verdict.Verdict.{Verdict};
ghost use Rattle.pungi_report.specs.Fits.{FitsLine};
ghost use Rattle.pungi_report.specs.Same.{IsSameLine};
ghost use Rattle.pungi_report.specs.Text.{report_text, IsLine};

/// The law of the report: its bytes determine what is said. Where two lists of lines print the same, each line of the
/// one has the name and the verdict of the other's.
pub fn report_is_read_back()
    ensures { (names others : List (List ℕ)) → (lines more : List (Name × Verdict)) → All (IsLine names) lines
        → All (IsLine others) more → All FitsLine lines → All FitsLine more
        → report_text names lines ≡ report_text others more → AllZip (IsSameLine names others) lines more }
{}

// How the run of a called function stands in its caller's.
ghost use Rattle.pungi_meaning.specs.Segments.{AreSegments};

/// The law of segments: the run of a called function is a segment of its caller's. The functions that wait are
/// untouched until it returns, and then the newest of them goes on with the steps that are left.
pub fn runs_are_segments()
    ensures { AreSegments }
{}

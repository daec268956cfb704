/// Whether a call takes over the reference that is passed for a parameter (Python/C API Reference Manual 3.11,
/// 'Reference Count Details': a call steals a reference).
#[derive(Clone, Copy, Debug, PartialEq, Eq)]
pub enum Take {
    Never,
    /// Also where the call fails.
    Always,
    /// Only where the call succeeds.
    OnSuccess,
}

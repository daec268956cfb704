/// How far the arguments of a call are what they are to be.
#[derive(Clone, Copy)]
pub(crate) struct Met {
    /// Those before the format are there and fit, or all do where there is no format.
    pub(crate) fixed: bool,
    /// As many as are wanted, and each fits.
    pub(crate) all: bool,
}

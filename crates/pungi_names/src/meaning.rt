// What words stand for.
ghost use Rattle.std.specs.Prelude.{◌≡◌};
ghost use Rattle.pungi_names.specs.MeaningView.{meaning_view};
ghost use Rattle.pungi_types.specs.Calls.{meaning_kind, is_slot};
ghost use Rattle.pungi_types.specs.Exprs.{is_function_meaning, is_unknown};
ghost use Rattle.pungi_types.specs.Standing.{standing_of};

use pungi_types::{Standing, ValueKind};

/// What a word of the file is where it stands as a value.
#[derive(Clone, Copy)]
pub(crate) enum Meaning {
    Function,
    Global(ValueKind),
    Static(u32),
    Unknown,
}

impl Meaning {
    pub(crate) fn kind(&self) -> Option<ValueKind>
        ensures { result ≡ meaning_kind (meaning_view self.now) }
    {
        match self {
            Meaning::Function => None,
            Meaning::Global(kind) => Some(*kind),
            Meaning::Static(_) => Some(ValueKind::Object(None)),
            Meaning::Unknown => None,
        }
    }

    pub(crate) fn is_slot(&self) -> bool
        ensures { result ≡ is_slot (meaning_view self.now) }
    {
        match self {
            Meaning::Function => false,
            Meaning::Global(_) => true,
            Meaning::Static(_) => false,
            Meaning::Unknown => false,
        }
    }

    pub(crate) fn is_function(&self) -> bool
        ensures { result ≡ is_function_meaning (meaning_view self.now) }
    {
        match self {
            Meaning::Function => true,
            Meaning::Global(_) => false,
            Meaning::Static(_) => false,
            Meaning::Unknown => false,
        }
    }

    pub(crate) fn is_unknown(&self) -> bool
        ensures { result ≡ is_unknown (meaning_view self.now) }
    {
        match self {
            Meaning::Function => false,
            Meaning::Global(_) => false,
            Meaning::Static(_) => false,
            Meaning::Unknown => true,
        }
    }

    pub(crate) fn standing(&self) -> Standing
        ensures { result ≡ standing_of (meaning_view self.now) }
    {
        match self {
            Meaning::Function => Standing::Other,
            Meaning::Global(_) => Standing::Global,
            Meaning::Static(number) => Standing::Static(*number),
            Meaning::Unknown => Standing::Other,
        }
    }
}

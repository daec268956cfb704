use pungi_format::{FormatFault, InUnit, OutUnit, build_units, parse_units};
use std::alloc::Global;

/// Formats that take apart, with their units and how many of them are required.
const TAKING: &[(&str, &[InUnit], usize)] = &[
    ("", &[], 0),
    ("O!|i:go", &[InUnit::ObjectOf, InUnit::Int], 1),
    ("OSU", &[InUnit::Object, InUnit::Object, InUnit::Object], 3),
    (
        "ilnpsz",
        &[
            InUnit::Int,
            InUnit::Long,
            InUnit::Size,
            InUnit::Truth,
            InUnit::Text,
            InUnit::TextOrNull,
        ],
        6,
    ),
    (
        "|OO!;it | takes & two",
        &[InUnit::Object, InUnit::ObjectOf],
        0,
    ),
    ("O|", &[InUnit::Object], 1),
];

fn takes(alloc: Global, text: &str, units: &[InUnit], required: usize) -> bool {
    match parse_units(alloc, text.as_bytes()) {
        Ok(format) => format.units.as_slice() == units && format.required == required,
        Err(_) => false,
    }
}

#[test]
fn formats_that_take_apart(rt: HostRuntime) {
    for (text, units, required) in TAKING {
        assert!(rt; takes(rt.alloc(), text, units, *required), "at {text}");
    }
}

/// Texts that are no such formats, and their faults.
const NOT_TAKING: &[(&str, FormatFault)] = &[
    ("O&", FormatFault::UnknownUnit(1)),
    ("O||i", FormatFault::Order(2)),
    ("(i)", FormatFault::UnknownUnit(0)),
    ("!", FormatFault::UnknownUnit(0)),
    ("S!", FormatFault::UnknownUnit(1)),
    ("O!!", FormatFault::UnknownUnit(2)),
    ("O|!", FormatFault::UnknownUnit(2)),
    ("i d||", FormatFault::UnknownUnit(1)),
];

fn is_not_taking(alloc: Global, text: &str, fault: &FormatFault) -> bool {
    match parse_units(alloc, text.as_bytes()) {
        Ok(_) => false,
        Err(found) => found == *fault,
    }
}

#[test]
fn faults_of_formats_that_take_apart(rt: HostRuntime) {
    for (text, fault) in NOT_TAKING {
        assert!(rt; is_not_taking(rt.alloc(), text, fault), "at {text}");
    }
}

/// Formats that build, with their units.
const BUILDING: &[(&str, &[OutUnit])] = &[
    ("", &[]),
    ("(Oi)", &[OutUnit::Keep, OutUnit::Int]),
    (
        "{s:O,\tz: N}",
        &[
            OutUnit::TextOrNull,
            OutUnit::Keep,
            OutUnit::TextOrNull,
            OutUnit::Take,
        ],
    ),
    ("[(S)l]n{}", &[OutUnit::Keep, OutUnit::Long, OutUnit::Size]),
];

fn builds(alloc: Global, text: &str, units: &[OutUnit]) -> bool {
    match build_units(alloc, text.as_bytes()) {
        Ok(found) => found.as_slice() == units,
        Err(_) => false,
    }
}

#[test]
fn formats_that_build(rt: HostRuntime) {
    for (text, units) in BUILDING {
        assert!(rt; builds(rt.alloc(), text, units), "at {text}");
    }
}

/// Texts that are no such formats, and their faults.
const NOT_BUILDING: &[(&str, FormatFault)] = &[
    ("(Oi", FormatFault::Unbalanced(0)),
    ("O)", FormatFault::Unbalanced(1)),
    ("(O]", FormatFault::Unbalanced(2)),
    ("([i]", FormatFault::Unbalanced(0)),
    ("((i)(", FormatFault::Unbalanced(4)),
    ("O!", FormatFault::UnknownUnit(1)),
    ("(d]", FormatFault::UnknownUnit(1)),
    (")d", FormatFault::Unbalanced(0)),
];

fn is_not_building(alloc: Global, text: &str, fault: &FormatFault) -> bool {
    match build_units(alloc, text.as_bytes()) {
        Ok(_) => false,
        Err(found) => found == *fault,
    }
}

#[test]
fn faults_of_formats_that_build(rt: HostRuntime) {
    for (text, fault) in NOT_BUILDING {
        assert!(rt; is_not_building(rt.alloc(), text, fault), "at {text}");
    }
}

//! Calls of rows of the API's table: what each shows by each choice.

use crate::world_table::{Group, HANDED, LOWERED, N, NEEDS, RAISED, Shown, T, X, Y, all_show};
use pungi_api::row_words::*;
use pungi_base::{Choice, Value, words};
use std::test::Fail;

/// A new reference to an object that is there or the next one, or `NULL`.
const NEW_REFERENCES: Group = (
    &[
        (words::PY_LONG_FROM_LONG, &[N], &[]),
        (PY_UNICODE_FROM_STRING, &[T], &[0]),
        (PY_BYTES_FROM_STRING, &[T], &[0]),
        (PY_LIST_NEW, &[N], &[]),
        (PY_TUPLE_NEW, &[N], &[]),
        (PY_DICT_NEW, &[], &[]),
        (PY_OBJECT_STR, &[X], &[0]),
        (PY_OBJECT_REPR, &[X], &[0]),
        (PY_OBJECT_GET_ATTR, &[X, Y], &[0, 1]),
        (PY_OBJECT_GET_ATTR_STRING, &[X, T], &[0, 1]),
        (PY_OBJECT_GET_ITEM, &[X, Y], &[0, 1]),
        (PY_OBJECT_GET_ITER, &[X], &[0]),
        (PY_OBJECT_CALL_OBJECT, &[X, Value::Null], &[0]),
        (PY_OBJECT_CALL, &[X, Y, Value::Null], &[0, 1]),
        (PY_SEQUENCE_GET_ITEM, &[X, N], &[0]),
        (PY_SEQUENCE_FAST, &[X, T], &[0, 1]),
        (PY_NUMBER_ADD, &[X, Y], &[0, 1]),
        (PY_NUMBER_SUBTRACT, &[X, Y], &[0, 1]),
        (PY_NUMBER_MULTIPLY, &[X, X], &[0, 1]),
        (PY_DICT_KEYS, &[X], &[0]),
        (PY_DICT_VALUES, &[X], &[0]),
        (PY_DICT_ITEMS, &[X], &[0]),
        (PY_IMPORT_IMPORT_MODULE, &[T], &[0]),
        (PY_ITER_NEXT, &[X], &[0]),
        (PY_MODULE_CREATE, &[T], &[]),
    ],
    &[
        (None, NEEDS),
        (
            Some(Choice::Null),
            Shown::Ends(Some(Value::Null), 1, 26, None),
        ),
        (
            Some(Choice::Object(0)),
            Shown::Ends(Some(Value::Object(0)), 1, 26, Some((0, RAISED))),
        ),
        (
            Some(Choice::Object(24)),
            Shown::Ends(Some(X), 1, 26, Some((24, RAISED))),
        ),
        (
            Some(Choice::Object(26)),
            Shown::Ends(Some(Value::Object(26)), 1, 27, Some((26, RAISED))),
        ),
        (Some(Choice::Object(27)), NEEDS),
        (Some(Choice::Int(0)), NEEDS),
        (Some(Choice::Text), NEEDS),
        (Some(Choice::Given(0)), NEEDS),
    ],
);

/// A reference that stays another's, or `NULL`.
const BORROWED_REFERENCES: Group = (
    &[
        (PY_LIST_GET_ITEM, &[X, N], &[0]),
        (PY_TUPLE_GET_ITEM, &[X, N], &[0]),
        (PY_DICT_GET_ITEM, &[X, Y], &[0, 1]),
        (PY_DICT_GET_ITEM_STRING, &[X, T], &[0, 1]),
        (PY_DICT_GET_ITEM_WITH_ERROR, &[X, Y], &[0, 1]),
        (PY_IMPORT_ADD_MODULE, &[T], &[0]),
        (PY_ERR_OCCURRED, &[], &[]),
    ],
    &[
        (None, NEEDS),
        (
            Some(Choice::Null),
            Shown::Ends(Some(Value::Null), 1, 26, None),
        ),
        (Some(Choice::Object(25)), Shown::Ends(Some(Y), 1, 26, None)),
        (
            Some(Choice::Object(26)),
            Shown::Ends(Some(Value::Object(26)), 1, 27, None),
        ),
        (Some(Choice::Object(27)), NEEDS),
        (Some(Choice::Int(1)), NEEDS),
    ],
);

/// A borrowed reference that is never `NULL`.
const SURE_REFERENCES: Group = (
    &[
        (PY_MODULE_GET_DICT, &[X], &[0]),
        (PY_SEQUENCE_FAST_GET_ITEM, &[X, N], &[0]),
        (PY_LIST_GET_ITEM_UNCHECKED, &[X, N], &[0]),
        (PY_TUPLE_GET_ITEM_UNCHECKED, &[X, N], &[0]),
    ],
    &[
        (None, NEEDS),
        (Some(Choice::Null), NEEDS),
        (Some(Choice::Object(24)), Shown::Ends(Some(X), 1, 26, None)),
        (
            Some(Choice::Object(26)),
            Shown::Ends(Some(Value::Object(26)), 1, 27, None),
        ),
        (Some(Choice::Object(27)), NEEDS),
    ],
);

/// 0, or -1 where the call fails. Nothing is taken over.
const STATUSES: Group = (
    &[
        (PY_MODULE_ADD_OBJECT_REF, &[X, T, Y], &[0, 1, 2]),
        (PY_LIST_APPEND, &[X, Y], &[0, 1]),
        (PY_LIST_INSERT, &[X, N, Y], &[0, 2]),
        (PY_DICT_SET_ITEM, &[X, Y, X], &[0, 1, 2]),
        (PY_DICT_SET_ITEM_STRING, &[X, T, Y], &[0, 1, 2]),
        (PY_DICT_DEL_ITEM, &[X, Y], &[0, 1]),
        (PY_OBJECT_SET_ATTR, &[X, Y, X], &[0, 1, 2]),
        (PY_OBJECT_SET_ATTR_STRING, &[X, T, Y], &[0, 1, 2]),
        (PY_OBJECT_SET_ITEM, &[X, Y, X], &[0, 1, 2]),
        (PY_SEQUENCE_SET_ITEM, &[X, N, Y], &[0, 2]),
        (PY_MODULE_ADD_INT_CONSTANT, &[X, T, N], &[0, 1]),
        (PY_TYPE_READY, &[X], &[0]),
    ],
    &[
        (None, NEEDS),
        (
            Some(Choice::Int(0)),
            Shown::Ends(Some(Value::Int(0)), 1, 26, None),
        ),
        (
            Some(Choice::Int(-1)),
            Shown::Ends(Some(Value::Int(-1)), 1, 26, None),
        ),
        (Some(Choice::Int(1)), NEEDS),
        (Some(Choice::Int(-2)), NEEDS),
        (Some(Choice::Null), NEEDS),
        (Some(Choice::Failed(0)), NEEDS),
    ],
);

/// An item of a list or a tuple is taken over even where the call fails; the object of a module only where it succeeds.
const ITEMS_TAKEN: Group = (
    &[
        (PY_LIST_SET_ITEM, &[X, N, Y], &[0, 2]),
        (PY_TUPLE_SET_ITEM, &[X, N, Y], &[0, 2]),
    ],
    &[
        (None, NEEDS),
        (
            Some(Choice::Int(0)),
            Shown::Ends(Some(Value::Int(0)), 1, 26, Some((25, HANDED))),
        ),
        (
            Some(Choice::Int(-1)),
            Shown::Ends(Some(Value::Int(-1)), 1, 26, Some((25, HANDED))),
        ),
        (Some(Choice::Int(1)), NEEDS),
    ],
);

const OBJECTS_OF_MODULES: Group = (
    &[(PY_MODULE_ADD_OBJECT, &[X, T, Y], &[0, 1, 2])],
    &[
        (None, NEEDS),
        (
            Some(Choice::Int(0)),
            Shown::Ends(Some(Value::Int(0)), 1, 26, Some((25, HANDED))),
        ),
        (
            Some(Choice::Int(-1)),
            Shown::Ends(Some(Value::Int(-1)), 1, 26, None),
        ),
        (Some(Choice::Int(1)), NEEDS),
    ],
);

/// Truths, sizes and numbers.
const TRUTHS: Group = (
    &[
        (PY_OBJECT_IS_TRUE, &[X], &[0]),
        (PY_OBJECT_IS_INSTANCE, &[X, Y], &[0, 1]),
        (PY_OBJECT_RICH_COMPARE_BOOL, &[X, Y, N], &[0, 1]),
    ],
    &[
        (None, NEEDS),
        (
            Some(Choice::Int(1)),
            Shown::Ends(Some(Value::Int(1)), 1, 26, None),
        ),
        (
            Some(Choice::Int(0)),
            Shown::Ends(Some(Value::Int(0)), 1, 26, None),
        ),
        (
            Some(Choice::Int(-1)),
            Shown::Ends(Some(Value::Int(-1)), 1, 26, None),
        ),
        (Some(Choice::Int(2)), NEEDS),
        (Some(Choice::Int(-2)), NEEDS),
    ],
);

const SIZES: Group = (
    &[
        (PY_OBJECT_SIZE, &[X], &[0]),
        (PY_SEQUENCE_SIZE, &[X], &[0]),
        (PY_SEQUENCE_LENGTH, &[X], &[0]),
    ],
    &[
        (None, NEEDS),
        (
            Some(Choice::Int(-1)),
            Shown::Ends(Some(Value::Int(-1)), 1, 26, None),
        ),
        (
            Some(Choice::Int(i64::MAX)),
            Shown::Ends(Some(Value::Int(i64::MAX)), 1, 26, None),
        ),
        (Some(Choice::Int(-2)), NEEDS),
        (Some(Choice::Object(0)), NEEDS),
    ],
);

const LONGS: Group = (
    &[(PY_LONG_AS_LONG, &[X], &[0])],
    &[
        (None, NEEDS),
        (
            Some(Choice::Int(i64::MIN)),
            Shown::Ends(Some(Value::Int(i64::MIN)), 1, 26, None),
        ),
        (
            Some(Choice::Int(i64::MAX)),
            Shown::Ends(Some(Value::Int(i64::MAX)), 1, 26, None),
        ),
        (Some(Choice::Null), NEEDS),
    ],
);

/// Calls that use no choice, whether or not there is one.
const TAKING: Group = (
    &[
        (PY_LIST_SET_ITEM_UNCHECKED, &[X, N, Y], &[0, 2]),
        (PY_TUPLE_SET_ITEM_UNCHECKED, &[X, N, Y], &[0, 2]),
    ],
    &[
        (None, Shown::Ends(None, 0, 26, Some((25, HANDED)))),
        (
            Some(Choice::Null),
            Shown::Ends(None, 0, 26, Some((25, HANDED))),
        ),
    ],
);

const VOIDS: Group = (
    &[
        (PY_ERR_SET_STRING, &[X, T], &[0, 1]),
        (PY_ERR_SET_NONE, &[X], &[0]),
        (PY_ERR_CLEAR, &[], &[]),
    ],
    &[
        (None, Shown::Ends(None, 0, 26, None)),
        (Some(Choice::Int(0)), Shown::Ends(None, 0, 26, None)),
    ],
);

const NULLS: Group = (
    &[(PY_ERR_NO_MEMORY, &[], &[])],
    &[
        (None, Shown::Ends(Some(Value::Null), 0, 26, None)),
        (
            Some(Choice::Object(0)),
            Shown::Ends(Some(Value::Null), 0, 26, None),
        ),
    ],
);

/// Rows that count their argument. Those with an X do nothing on `NULL`.
const COUNTED_UP: Group = (
    &[
        (words::PY_INCREF, &[X], &[0]),
        (words::PY_XINCREF, &[X], &[]),
    ],
    &[(None, Shown::Ends(None, 0, 26, Some((24, RAISED))))],
);

const COUNTED_DOWN: Group = (
    &[
        (words::PY_DECREF, &[X], &[0]),
        (words::PY_XDECREF, &[X], &[]),
    ],
    &[(None, Shown::Ends(None, 0, 26, Some((24, LOWERED))))],
);

const GIVEN: Group = (
    &[
        (words::PY_NEW_REF, &[X], &[0]),
        (words::PY_XNEW_REF, &[X], &[]),
    ],
    &[(None, Shown::Ends(Some(X), 0, 26, Some((24, RAISED))))],
);

const PASSED_OVER: Group = (
    &[
        (words::PY_XINCREF, &[Value::Null], &[]),
        (words::PY_XDECREF, &[Value::Null], &[]),
    ],
    &[(None, Shown::Ends(None, 0, 26, None))],
);

const GIVEN_NULL: Group = (
    &[(words::PY_XNEW_REF, &[Value::Null], &[])],
    &[(None, Shown::Ends(Some(Value::Null), 0, 26, None))],
);

/// All of these.
const GROUPS: &[(&str, Group)] = &[
    ("new references", NEW_REFERENCES),
    ("borrowed references", BORROWED_REFERENCES),
    ("sure references", SURE_REFERENCES),
    ("statuses", STATUSES),
    ("items taken", ITEMS_TAKEN),
    ("objects of modules", OBJECTS_OF_MODULES),
    ("truths", TRUTHS),
    ("sizes", SIZES),
    ("longs", LONGS),
    ("taking", TAKING),
    ("voids", VOIDS),
    ("nulls", NULLS),
    ("counted up", COUNTED_UP),
    ("counted down", COUNTED_DOWN),
    ("given", GIVEN),
    ("passed over", PASSED_OVER),
    ("given null", GIVEN_NULL),
];

#[test]
fn calls_of_rows(rt: HostRuntime) -> Result<(), Fail> {
    for (name, group) in GROUPS {
        assert!(rt; all_show(rt.alloc(), *group)?, "{name}");
    }
    Ok(())
}

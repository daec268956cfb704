//! The rows of the manual. The definitions spell them once more, and `Table::builtin` is proved to have theirs.
ghost use Rattle.std.specs.Prelude.{◌≡◌, Some, map, slice_get};
ghost use Rattle.pungi_base.specs.Words.{builtin_words, plain_rows};
ghost use Rattle.pungi_api.specs.Manual.{calls, plain_calls, special_calls};
ghost use Rattle.pungi_api.specs.Rows.{builtin_row, plain_row, special_row};

use crate::row_words::*;
use crate::{Answer, Param, Special, Take};
use pungi_base::words::{self, PY_LONG_FROM_LONG};

/// The parameters of a plain row, in order.
#[derive(Clone, Copy, Debug)]
pub struct Parameters(pub Option<Param>, pub Option<Param>, pub Option<Param>);

/// A plain row: the number of its name, its parameters, when the third is taken over, and its answer.
#[derive(Clone, Copy, Debug)]
pub struct PlainRow(pub u32, pub Parameters, pub Take, pub Answer);

/// A row with an effect of its own: the number of its name, and its effect.
#[derive(Clone, Copy, Debug)]
pub struct SpecialRow(pub u32, pub Special);

const L: Parameters = Parameters(Some(Param::Long), None, None);

const T: Parameters = Parameters(Some(Param::Text), None, None);

const Z: Parameters = Parameters(Some(Param::Size), None, None);

const NOTHING: Parameters = Parameters(None, None, None);

const O: Parameters = Parameters(Some(Param::Object), None, None);

const OO: Parameters = Parameters(Some(Param::Object), Some(Param::Object), None);

const OT: Parameters = Parameters(Some(Param::Object), Some(Param::Text), None);

const ON: Parameters = Parameters(Some(Param::Object), Some(Param::ObjectOrNull), None);

const OON: Parameters = Parameters(
    Some(Param::Object),
    Some(Param::Object),
    Some(Param::ObjectOrNull),
);

const OZ: Parameters = Parameters(Some(Param::Object), Some(Param::Size), None);

const M: Parameters = Parameters(Some(Param::ModuleDef), None, None);

const OZO: Parameters = Parameters(Some(Param::Object), Some(Param::Size), Some(Param::Object));

const OTO: Parameters = Parameters(Some(Param::Object), Some(Param::Text), Some(Param::Object));

const OOO: Parameters = Parameters(
    Some(Param::Object),
    Some(Param::Object),
    Some(Param::Object),
);

const OTL: Parameters = Parameters(Some(Param::Object), Some(Param::Text), Some(Param::Long));

const OOI: Parameters = Parameters(Some(Param::Object), Some(Param::Object), Some(Param::Int));

/// The plain rows, in the order of their names among the words (Python/C API Reference Manual 3.11).
pub static PLAIN_ROWS: [PlainRow; 64] = [
    PlainRow(PY_LONG_FROM_LONG, L, Take::Never, Answer::New),
    PlainRow(PY_UNICODE_FROM_STRING, T, Take::Never, Answer::New),
    PlainRow(PY_BYTES_FROM_STRING, T, Take::Never, Answer::New),
    PlainRow(PY_LIST_NEW, Z, Take::Never, Answer::New),
    PlainRow(PY_TUPLE_NEW, Z, Take::Never, Answer::New),
    PlainRow(PY_DICT_NEW, NOTHING, Take::Never, Answer::New),
    PlainRow(PY_OBJECT_STR, O, Take::Never, Answer::New),
    PlainRow(PY_OBJECT_REPR, O, Take::Never, Answer::New),
    PlainRow(PY_OBJECT_GET_ATTR, OO, Take::Never, Answer::New),
    PlainRow(PY_OBJECT_GET_ATTR_STRING, OT, Take::Never, Answer::New),
    PlainRow(PY_OBJECT_GET_ITEM, OO, Take::Never, Answer::New),
    PlainRow(PY_OBJECT_GET_ITER, O, Take::Never, Answer::New),
    PlainRow(PY_OBJECT_CALL_OBJECT, ON, Take::Never, Answer::New),
    PlainRow(PY_OBJECT_CALL, OON, Take::Never, Answer::New),
    PlainRow(PY_SEQUENCE_GET_ITEM, OZ, Take::Never, Answer::New),
    PlainRow(PY_SEQUENCE_FAST, OT, Take::Never, Answer::New),
    PlainRow(PY_NUMBER_ADD, OO, Take::Never, Answer::New),
    PlainRow(PY_NUMBER_SUBTRACT, OO, Take::Never, Answer::New),
    PlainRow(PY_NUMBER_MULTIPLY, OO, Take::Never, Answer::New),
    PlainRow(PY_DICT_KEYS, O, Take::Never, Answer::New),
    PlainRow(PY_DICT_VALUES, O, Take::Never, Answer::New),
    PlainRow(PY_DICT_ITEMS, O, Take::Never, Answer::New),
    PlainRow(PY_IMPORT_IMPORT_MODULE, T, Take::Never, Answer::New),
    PlainRow(PY_ITER_NEXT, O, Take::Never, Answer::New),
    PlainRow(PY_MODULE_CREATE, M, Take::Never, Answer::New),
    PlainRow(PY_LIST_GET_ITEM, OZ, Take::Never, Answer::Borrowed),
    PlainRow(PY_TUPLE_GET_ITEM, OZ, Take::Never, Answer::Borrowed),
    PlainRow(PY_DICT_GET_ITEM, OO, Take::Never, Answer::Borrowed),
    PlainRow(PY_DICT_GET_ITEM_STRING, OT, Take::Never, Answer::Borrowed),
    PlainRow(
        PY_DICT_GET_ITEM_WITH_ERROR,
        OO,
        Take::Never,
        Answer::Borrowed,
    ),
    PlainRow(PY_IMPORT_ADD_MODULE, T, Take::Never, Answer::Borrowed),
    PlainRow(PY_ERR_OCCURRED, NOTHING, Take::Never, Answer::Borrowed),
    PlainRow(PY_MODULE_GET_DICT, O, Take::Never, Answer::BorrowedSure),
    PlainRow(
        PY_SEQUENCE_FAST_GET_ITEM,
        OZ,
        Take::Never,
        Answer::BorrowedSure,
    ),
    PlainRow(
        PY_LIST_GET_ITEM_UNCHECKED,
        OZ,
        Take::Never,
        Answer::BorrowedSure,
    ),
    PlainRow(
        PY_TUPLE_GET_ITEM_UNCHECKED,
        OZ,
        Take::Never,
        Answer::BorrowedSure,
    ),
    PlainRow(PY_LIST_SET_ITEM, OZO, Take::Always, Answer::Status),
    PlainRow(PY_TUPLE_SET_ITEM, OZO, Take::Always, Answer::Status),
    PlainRow(PY_MODULE_ADD_OBJECT, OTO, Take::OnSuccess, Answer::Status),
    PlainRow(PY_MODULE_ADD_OBJECT_REF, OTO, Take::Never, Answer::Status),
    PlainRow(PY_LIST_APPEND, OO, Take::Never, Answer::Status),
    PlainRow(PY_LIST_INSERT, OZO, Take::Never, Answer::Status),
    PlainRow(PY_DICT_SET_ITEM, OOO, Take::Never, Answer::Status),
    PlainRow(PY_DICT_SET_ITEM_STRING, OTO, Take::Never, Answer::Status),
    PlainRow(PY_DICT_DEL_ITEM, OO, Take::Never, Answer::Status),
    PlainRow(PY_OBJECT_SET_ATTR, OOO, Take::Never, Answer::Status),
    PlainRow(PY_OBJECT_SET_ATTR_STRING, OTO, Take::Never, Answer::Status),
    PlainRow(PY_OBJECT_SET_ITEM, OOO, Take::Never, Answer::Status),
    PlainRow(PY_SEQUENCE_SET_ITEM, OZO, Take::Never, Answer::Status),
    PlainRow(PY_MODULE_ADD_INT_CONSTANT, OTL, Take::Never, Answer::Status),
    PlainRow(PY_TYPE_READY, O, Take::Never, Answer::Status),
    PlainRow(PY_OBJECT_IS_TRUE, O, Take::Never, Answer::Truth),
    PlainRow(PY_OBJECT_IS_INSTANCE, OO, Take::Never, Answer::Truth),
    PlainRow(PY_OBJECT_RICH_COMPARE_BOOL, OOI, Take::Never, Answer::Truth),
    PlainRow(PY_OBJECT_SIZE, O, Take::Never, Answer::Size),
    PlainRow(PY_SEQUENCE_SIZE, O, Take::Never, Answer::Size),
    PlainRow(PY_SEQUENCE_LENGTH, O, Take::Never, Answer::Size),
    PlainRow(PY_LONG_AS_LONG, O, Take::Never, Answer::Long),
    PlainRow(PY_LIST_SET_ITEM_UNCHECKED, OZO, Take::Always, Answer::Void),
    PlainRow(PY_TUPLE_SET_ITEM_UNCHECKED, OZO, Take::Always, Answer::Void),
    PlainRow(PY_ERR_SET_STRING, OT, Take::Never, Answer::Void),
    PlainRow(PY_ERR_SET_NONE, O, Take::Never, Answer::Void),
    PlainRow(PY_ERR_CLEAR, NOTHING, Take::Never, Answer::Void),
    PlainRow(PY_ERR_NO_MEMORY, NOTHING, Take::Never, Answer::Null),
];

/// The rows with effects of their own (Python/C API Reference Manual 3.11, 'Reference Counting').
pub static SPECIAL_ROWS: [SpecialRow; 14] = [
    SpecialRow(words::PY_INCREF, Special::IncRef),
    SpecialRow(words::PY_DECREF, Special::DecRef),
    SpecialRow(words::PY_XINCREF, Special::XIncRef),
    SpecialRow(words::PY_XDECREF, Special::XDecRef),
    SpecialRow(words::PY_CLEAR, Special::Clear),
    SpecialRow(words::PY_NEW_REF, Special::NewRef),
    SpecialRow(words::PY_XNEW_REF, Special::XNewRef),
    SpecialRow(words::PY_TUPLE_PACK, Special::TuplePack),
    SpecialRow(
        words::PY_OBJECT_CALL_FUNCTION_OBJ_ARGS,
        Special::CallFunctionObjArgs,
    ),
    SpecialRow(words::PY_ERR_FORMAT, Special::ErrFormat),
    SpecialRow(words::PY_ARG_PARSE_TUPLE, Special::ParseTuple),
    SpecialRow(words::PY_ARG_UNPACK_TUPLE, Special::UnpackTuple),
    SpecialRow(words::PY_DICT_NEXT, Special::DictNext),
    SpecialRow(words::PY_BUILD_VALUE, Special::BuildValue),
];

/// The rows are those that the definitions spell, each under the number that its name has among the words, and the
/// plain rows are all words of plain rows, in their order.
pub fn rows_have_their_names()
    ensures plain_rows { map plain_row PLAIN_ROWS ≡ map builtin_row plain_calls }
    ensures special_rows { map special_row SPECIAL_ROWS ≡ map builtin_row special_calls }
    ensures numbers { map (λ c. slice_get builtin_words c.number) calls ≡ map (λ c. Some c.name) calls }
    ensures names { map (λ c. c.name) plain_calls ≡ plain_rows }
{}

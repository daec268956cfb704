ghost use Rattle.std.specs.Prelude.{◌≡◌, ◌<◌, ◌≤◌, [], get_or, IfOk};
ghost use Rattle.pungi_base.specs.Words.{builtin_words};

use crate::words::{FIRST_STATIC, KEYWORDS, PY_INCREF, STATICS_END, WORDS};
use crate::{Memory, Names};
use std::alloc::Global;

/// A keyword, by its number.
fn keyword(number: u32) -> &'static str
    requires { number < KEYWORDS }
    ensures { result.now ≡ get_or builtin_words number [] }
{
    match number {
        0 => "int",
        1 => "long",
        2 => "short",
        3 => "char",
        4 => "unsigned",
        5 => "signed",
        6 => "float",
        7 => "double",
        8 => "void",
        9 => "_Bool",
        10 => "struct",
        11 => "union",
        12 => "enum",
        13 => "typedef",
        14 => "static",
        15 => "extern",
        16 => "inline",
        17 => "const",
        18 => "volatile",
        19 => "register",
        20 => "if",
        21 => "else",
        22 => "while",
        23 => "do",
        24 => "for",
        25 => "switch",
        26 => "case",
        27 => "default",
        28 => "break",
        29 => "continue",
        30 => "return",
        31 => "goto",
        32 => "sizeof",
        33 => "NULL",
        _ => unreachable!(),
    }
}

/// A predefined macro or the name of a type, by its number.
fn macro_or_type(number: u32) -> &'static str
    requires from { KEYWORDS ≤ number }
    requires below { number < FIRST_STATIC }
    ensures { result.now ≡ get_or builtin_words number [] }
{
    match number {
        34 => "Py_RETURN_NONE",
        35 => "Py_RETURN_TRUE",
        36 => "Py_RETURN_FALSE",
        37 => "Py_BEGIN_ALLOW_THREADS",
        38 => "Py_END_ALLOW_THREADS",
        39 => "PyMODINIT_FUNC",
        40 => "PyObject_HEAD",
        41 => "PyObject_VAR_HEAD",
        42 => "Py_LT",
        43 => "Py_LE",
        44 => "Py_EQ",
        45 => "Py_NE",
        46 => "Py_GT",
        47 => "Py_GE",
        48 => "PyObject",
        49 => "PyVarObject",
        50 => "PyTypeObject",
        51 => "PyMethodDef",
        52 => "PyModuleDef",
        53 => "PyModuleDef_Slot",
        54 => "PyMemberDef",
        55 => "PyGetSetDef",
        56 => "PyNumberMethods",
        57 => "PySequenceMethods",
        58 => "PyMappingMethods",
        59 => "PyType_Slot",
        60 => "PyType_Spec",
        61 => "PyCFunction",
        62 => "Py_ssize_t",
        63 => "Py_hash_t",
        64 => "Py_buffer",
        65 => "PyThreadState",
        66 => "PyGILState_STATE",
        67 => "size_t",
        68 => "ssize_t",
        69 => "int8_t",
        70 => "int16_t",
        71 => "int32_t",
        72 => "int64_t",
        73 => "uint8_t",
        74 => "uint16_t",
        75 => "uint32_t",
        76 => "uint64_t",
        77 => "bool",
        78 => "FILE",
        _ => unreachable!(),
    }
}

/// A static, by its number.
fn static_object(number: u32) -> &'static str
    requires from { FIRST_STATIC ≤ number }
    requires below { number < STATICS_END }
    ensures { result.now ≡ get_or builtin_words number [] }
{
    match number {
        79 => "Py_None",
        80 => "Py_True",
        81 => "Py_False",
        82 => "PyExc_Exception",
        83 => "PyExc_TypeError",
        84 => "PyExc_ValueError",
        85 => "PyExc_RuntimeError",
        86 => "PyExc_KeyError",
        87 => "PyExc_IndexError",
        88 => "PyExc_AttributeError",
        89 => "PyExc_OverflowError",
        90 => "PyExc_MemoryError",
        91 => "PyExc_StopIteration",
        92 => "PyExc_ImportError",
        93 => "PyExc_SystemError",
        94 => "PyExc_NotImplementedError",
        95 => "PyExc_OSError",
        96 => "PyExc_ZeroDivisionError",
        97 => "PyList_Type",
        98 => "PyTuple_Type",
        99 => "PyDict_Type",
        100 => "PyUnicode_Type",
        101 => "PyLong_Type",
        102 => "PyBytes_Type",
        _ => unreachable!(),
    }
}

/// An API call with a plain row, by its number.
fn plain_row(number: u32) -> &'static str
    requires from { STATICS_END ≤ number }
    requires below { number < PY_INCREF }
    ensures { result.now ≡ get_or builtin_words number [] }
{
    match number {
        103 => "PyLong_FromLong",
        104 => "PyUnicode_FromString",
        105 => "PyBytes_FromString",
        106 => "PyList_New",
        107 => "PyTuple_New",
        108 => "PyDict_New",
        109 => "PyObject_Str",
        110 => "PyObject_Repr",
        111 => "PyObject_GetAttr",
        112 => "PyObject_GetAttrString",
        113 => "PyObject_GetItem",
        114 => "PyObject_GetIter",
        115 => "PyObject_CallObject",
        116 => "PyObject_Call",
        117 => "PySequence_GetItem",
        118 => "PySequence_Fast",
        119 => "PyNumber_Add",
        120 => "PyNumber_Subtract",
        121 => "PyNumber_Multiply",
        122 => "PyDict_Keys",
        123 => "PyDict_Values",
        124 => "PyDict_Items",
        125 => "PyImport_ImportModule",
        126 => "PyIter_Next",
        127 => "PyModule_Create",
        128 => "PyList_GetItem",
        129 => "PyTuple_GetItem",
        130 => "PyDict_GetItem",
        131 => "PyDict_GetItemString",
        132 => "PyDict_GetItemWithError",
        133 => "PyImport_AddModule",
        134 => "PyErr_Occurred",
        135 => "PyModule_GetDict",
        136 => "PySequence_Fast_GET_ITEM",
        137 => "PyList_GET_ITEM",
        138 => "PyTuple_GET_ITEM",
        139 => "PyList_SetItem",
        140 => "PyTuple_SetItem",
        141 => "PyModule_AddObject",
        142 => "PyModule_AddObjectRef",
        143 => "PyList_Append",
        144 => "PyList_Insert",
        145 => "PyDict_SetItem",
        146 => "PyDict_SetItemString",
        147 => "PyDict_DelItem",
        148 => "PyObject_SetAttr",
        149 => "PyObject_SetAttrString",
        150 => "PyObject_SetItem",
        151 => "PySequence_SetItem",
        152 => "PyModule_AddIntConstant",
        153 => "PyType_Ready",
        154 => "PyObject_IsTrue",
        155 => "PyObject_IsInstance",
        156 => "PyObject_RichCompareBool",
        157 => "PyObject_Size",
        158 => "PySequence_Size",
        159 => "PySequence_Length",
        160 => "PyLong_AsLong",
        161 => "PyList_SET_ITEM",
        162 => "PyTuple_SET_ITEM",
        163 => "PyErr_SetString",
        164 => "PyErr_SetNone",
        165 => "PyErr_Clear",
        166 => "PyErr_NoMemory",
        _ => unreachable!(),
    }
}

/// An API call with a special row or a further word, by its number.
fn other_word(number: u32) -> &'static str
    requires from { PY_INCREF ≤ number }
    requires below { number < WORDS }
    ensures { result.now ≡ get_or builtin_words number [] }
{
    match number {
        167 => "Py_INCREF",
        168 => "Py_DECREF",
        169 => "Py_XINCREF",
        170 => "Py_XDECREF",
        171 => "Py_CLEAR",
        172 => "Py_NewRef",
        173 => "Py_XNewRef",
        174 => "PyObject_New",
        175 => "PyTuple_Pack",
        176 => "PyObject_CallFunctionObjArgs",
        177 => "PyErr_Format",
        178 => "PyArg_ParseTuple",
        179 => "PyArg_UnpackTuple",
        180 => "PyDict_Next",
        181 => "Py_BuildValue",
        182 => "ob_base",
        183 => "PyDoc_STRVAR",
        184 => "Py_UNUSED",
        185 => "include",
        186 => "define",
        _ => unreachable!(),
    }
}

/// The word of a number.
fn word_of(number: u32) -> &'static str
    requires { number < WORDS }
    ensures { result.now ≡ get_or builtin_words number [] }
{
    if number < KEYWORDS {
        keyword(number)
    } else if number < FIRST_STATIC {
        macro_or_type(number)
    } else if number < STATICS_END {
        static_object(number)
    } else if number < PY_INCREF {
        plain_row(number)
    } else {
        other_word(number)
    }
}

impl Names {
    /// The names of the words that are known before a text is read.
    pub fn builtin(alloc: Global) -> Result<Names, Memory>
        ensures { IfOk result (λ names. names ≡ builtin_words) }
    {
        let mut names = Names::new(alloc);
        for i in 0..WORDS {
            names.number(alloc, word_of(i).as_bytes())?;
        }
        Ok(names)
    }
}

//! The names of the plain rows, by their numbers among the words.

/// `PyUnicode_FromString`.
pub const PY_UNICODE_FROM_STRING: u32 = 104;

/// `PyBytes_FromString`.
pub const PY_BYTES_FROM_STRING: u32 = 105;

/// `PyList_New`.
pub const PY_LIST_NEW: u32 = 106;

/// `PyTuple_New`.
pub const PY_TUPLE_NEW: u32 = 107;

/// `PyDict_New`.
pub const PY_DICT_NEW: u32 = 108;

/// `PyObject_Str`.
pub const PY_OBJECT_STR: u32 = 109;

/// `PyObject_Repr`.
pub const PY_OBJECT_REPR: u32 = 110;

/// `PyObject_GetAttr`.
pub const PY_OBJECT_GET_ATTR: u32 = 111;

/// `PyObject_GetAttrString`.
pub const PY_OBJECT_GET_ATTR_STRING: u32 = 112;

/// `PyObject_GetItem`.
pub const PY_OBJECT_GET_ITEM: u32 = 113;

/// `PyObject_GetIter`.
pub const PY_OBJECT_GET_ITER: u32 = 114;

/// `PyObject_CallObject`.
pub const PY_OBJECT_CALL_OBJECT: u32 = 115;

/// `PyObject_Call`.
pub const PY_OBJECT_CALL: u32 = 116;

/// `PySequence_GetItem`.
pub const PY_SEQUENCE_GET_ITEM: u32 = 117;

/// `PySequence_Fast`.
pub const PY_SEQUENCE_FAST: u32 = 118;

/// `PyNumber_Add`.
pub const PY_NUMBER_ADD: u32 = 119;

/// `PyNumber_Subtract`.
pub const PY_NUMBER_SUBTRACT: u32 = 120;

/// `PyNumber_Multiply`.
pub const PY_NUMBER_MULTIPLY: u32 = 121;

/// `PyDict_Keys`.
pub const PY_DICT_KEYS: u32 = 122;

/// `PyDict_Values`.
pub const PY_DICT_VALUES: u32 = 123;

/// `PyDict_Items`.
pub const PY_DICT_ITEMS: u32 = 124;

/// `PyImport_ImportModule`.
pub const PY_IMPORT_IMPORT_MODULE: u32 = 125;

/// `PyIter_Next`.
pub const PY_ITER_NEXT: u32 = 126;

/// `PyModule_Create`.
pub const PY_MODULE_CREATE: u32 = 127;

/// `PyList_GetItem`.
pub const PY_LIST_GET_ITEM: u32 = 128;

/// `PyTuple_GetItem`.
pub const PY_TUPLE_GET_ITEM: u32 = 129;

/// `PyDict_GetItem`.
pub const PY_DICT_GET_ITEM: u32 = 130;

/// `PyDict_GetItemString`.
pub const PY_DICT_GET_ITEM_STRING: u32 = 131;

/// `PyDict_GetItemWithError`.
pub const PY_DICT_GET_ITEM_WITH_ERROR: u32 = 132;

/// `PyImport_AddModule`.
pub const PY_IMPORT_ADD_MODULE: u32 = 133;

/// `PyErr_Occurred`.
pub const PY_ERR_OCCURRED: u32 = 134;

/// `PyModule_GetDict`.
pub const PY_MODULE_GET_DICT: u32 = 135;

/// `PySequence_Fast_GET_ITEM`.
pub const PY_SEQUENCE_FAST_GET_ITEM: u32 = 136;

/// `PyList_GET_ITEM`.
pub const PY_LIST_GET_ITEM_UNCHECKED: u32 = 137;

/// `PyTuple_GET_ITEM`.
pub const PY_TUPLE_GET_ITEM_UNCHECKED: u32 = 138;

/// `PyList_SetItem`.
pub const PY_LIST_SET_ITEM: u32 = 139;

/// `PyTuple_SetItem`.
pub const PY_TUPLE_SET_ITEM: u32 = 140;

/// `PyModule_AddObject`.
pub const PY_MODULE_ADD_OBJECT: u32 = 141;

/// `PyModule_AddObjectRef`.
pub const PY_MODULE_ADD_OBJECT_REF: u32 = 142;

/// `PyList_Append`.
pub const PY_LIST_APPEND: u32 = 143;

/// `PyList_Insert`.
pub const PY_LIST_INSERT: u32 = 144;

/// `PyDict_SetItem`.
pub const PY_DICT_SET_ITEM: u32 = 145;

/// `PyDict_SetItemString`.
pub const PY_DICT_SET_ITEM_STRING: u32 = 146;

/// `PyDict_DelItem`.
pub const PY_DICT_DEL_ITEM: u32 = 147;

/// `PyObject_SetAttr`.
pub const PY_OBJECT_SET_ATTR: u32 = 148;

/// `PyObject_SetAttrString`.
pub const PY_OBJECT_SET_ATTR_STRING: u32 = 149;

/// `PyObject_SetItem`.
pub const PY_OBJECT_SET_ITEM: u32 = 150;

/// `PySequence_SetItem`.
pub const PY_SEQUENCE_SET_ITEM: u32 = 151;

/// `PyModule_AddIntConstant`.
pub const PY_MODULE_ADD_INT_CONSTANT: u32 = 152;

/// `PyType_Ready`.
pub const PY_TYPE_READY: u32 = 153;

/// `PyObject_IsTrue`.
pub const PY_OBJECT_IS_TRUE: u32 = 154;

/// `PyObject_IsInstance`.
pub const PY_OBJECT_IS_INSTANCE: u32 = 155;

/// `PyObject_RichCompareBool`.
pub const PY_OBJECT_RICH_COMPARE_BOOL: u32 = 156;

/// `PyObject_Size`.
pub const PY_OBJECT_SIZE: u32 = 157;

/// `PySequence_Size`.
pub const PY_SEQUENCE_SIZE: u32 = 158;

/// `PySequence_Length`.
pub const PY_SEQUENCE_LENGTH: u32 = 159;

/// `PyLong_AsLong`.
pub const PY_LONG_AS_LONG: u32 = 160;

/// `PyList_SET_ITEM`.
pub const PY_LIST_SET_ITEM_UNCHECKED: u32 = 161;

/// `PyTuple_SET_ITEM`.
pub const PY_TUPLE_SET_ITEM_UNCHECKED: u32 = 162;

/// `PyErr_SetString`.
pub const PY_ERR_SET_STRING: u32 = 163;

/// `PyErr_SetNone`.
pub const PY_ERR_SET_NONE: u32 = 164;

/// `PyErr_Clear`.
pub const PY_ERR_CLEAR: u32 = 165;

/// `PyErr_NoMemory`.
pub const PY_ERR_NO_MEMORY: u32 = 166;

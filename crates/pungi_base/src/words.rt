//! The words that are known before a text is read, by their numbers among all names.
ghost use Rattle.std.specs.Prelude.{◌≡◌, codes};
ghost use Rattle.pungi_base.specs.Numbers.{IsCount, IsNumber, word_count, keyword_count, macro_count, type_word_count};
ghost use Rattle.pungi_base.specs.Numbers.{static_count, plain_static_count, first_type, types_end, first_static};
ghost use Rattle.pungi_base.specs.Numbers.{first_type_object, statics_end, first_free, py_return_none, py_return_true};
ghost use Rattle.pungi_base.specs.Numbers.{py_return_false, py_begin_allow_threads, py_end_allow_threads};
ghost use Rattle.pungi_base.specs.Numbers.{py_modinit_func, py_object_head, py_object_var_head, py_lt, py_le, py_eq};
ghost use Rattle.pungi_base.specs.Numbers.{py_ne, py_gt, py_ge, py_object, py_var_object, py_type_object};
ghost use Rattle.pungi_base.specs.Numbers.{py_method_def, py_module_def, py_member_def, py_get_set_def, py_ssize_t};
ghost use Rattle.pungi_base.specs.Numbers.{py_none, py_true, py_false, py_long_from_long, py_incref, py_decref};
ghost use Rattle.pungi_base.specs.Numbers.{py_xincref, py_xdecref, py_clear, py_new_ref, py_xnew_ref, py_object_new};
ghost use Rattle.pungi_base.specs.Numbers.{py_tuple_pack, py_object_call_function_obj_args, py_err_format};
ghost use Rattle.pungi_base.specs.Numbers.{py_arg_parse_tuple, py_arg_unpack_tuple, py_dict_next, py_build_value};
ghost use Rattle.pungi_base.specs.Numbers.{ob_base, py_doc_strvar, py_unused, include_word, define_word};
ghost use Rattle.pungi_base.specs.Words.{HasNumber, builtin_words, keywords, macros, type_words, statics};

/// How many words are known. Every other name of a text has a number from here on.
pub const WORDS: u32 = 187;

/// How many keywords there are, `NULL` among them. They come first.
pub const KEYWORDS: u32 = 34;

/// How many predefined macros there are. They come after the keywords.
pub const MACROS: u32 = 14;

/// How many names of types there are. They come after the predefined macros.
pub const TYPE_WORDS: u32 = 31;

/// How many statics there are. They come after the names of types.
pub const STATICS: u32 = 24;

/// How many of the statics are objects by their names alone. The others, the static types, are used with `&`.
pub const PLAIN_STATICS: u32 = 18;

/// The first name of a type.
pub const FIRST_TYPE: u32 = KEYWORDS + MACROS;

/// The end of the names of types.
pub const TYPES_END: u32 = FIRST_TYPE + TYPE_WORDS;

/// The first static.
pub const FIRST_STATIC: u32 = TYPES_END;

/// The first static that is a type object, which is used with `&`.
pub const FIRST_TYPE_OBJECT: u32 = FIRST_STATIC + PLAIN_STATICS;

/// The end of the statics, and the first API call.
pub const STATICS_END: u32 = FIRST_STATIC + STATICS;

/// The number of `Py_RETURN_NONE`.
pub const PY_RETURN_NONE: u32 = 34;

/// The number of `Py_RETURN_TRUE`.
pub const PY_RETURN_TRUE: u32 = 35;

/// The number of `Py_RETURN_FALSE`.
pub const PY_RETURN_FALSE: u32 = 36;

/// The number of `Py_BEGIN_ALLOW_THREADS`.
pub const PY_BEGIN_ALLOW_THREADS: u32 = 37;

/// The number of `Py_END_ALLOW_THREADS`.
pub const PY_END_ALLOW_THREADS: u32 = 38;

/// The number of `PyMODINIT_FUNC`.
pub const PY_MODINIT_FUNC: u32 = 39;

/// The number of `PyObject_HEAD`.
pub const PY_OBJECT_HEAD: u32 = 40;

/// The number of `PyObject_VAR_HEAD`.
pub const PY_OBJECT_VAR_HEAD: u32 = 41;

/// The number of `Py_LT`.
pub const PY_LT: u32 = 42;

/// The number of `Py_LE`.
pub const PY_LE: u32 = 43;

/// The number of `Py_EQ`.
pub const PY_EQ: u32 = 44;

/// The number of `Py_NE`.
pub const PY_NE: u32 = 45;

/// The number of `Py_GT`.
pub const PY_GT: u32 = 46;

/// The number of `Py_GE`.
pub const PY_GE: u32 = 47;

/// The number of `PyObject`.
pub const PY_OBJECT: u32 = 48;

/// The number of `PyVarObject`.
pub const PY_VAR_OBJECT: u32 = 49;

/// The number of `PyTypeObject`.
pub const PY_TYPE_OBJECT: u32 = 50;

/// The number of `PyMethodDef`.
pub const PY_METHOD_DEF: u32 = 51;

/// The number of `PyModuleDef`.
pub const PY_MODULE_DEF: u32 = 52;

/// The number of `PyMemberDef`.
pub const PY_MEMBER_DEF: u32 = 54;

/// The number of `PyGetSetDef`.
pub const PY_GET_SET_DEF: u32 = 55;

/// The number of `Py_ssize_t`.
pub const PY_SSIZE_T: u32 = 62;

/// The number of `Py_None`.
pub const PY_NONE: u32 = 79;

/// The number of `Py_True`.
pub const PY_TRUE: u32 = 80;

/// The number of `Py_False`.
pub const PY_FALSE: u32 = 81;

/// The number of `PyLong_FromLong`.
pub const PY_LONG_FROM_LONG: u32 = 103;

/// The number of `Py_INCREF`.
pub const PY_INCREF: u32 = 167;

/// The number of `Py_DECREF`.
pub const PY_DECREF: u32 = 168;

/// The number of `Py_XINCREF`.
pub const PY_XINCREF: u32 = 169;

/// The number of `Py_XDECREF`.
pub const PY_XDECREF: u32 = 170;

/// The number of `Py_CLEAR`.
pub const PY_CLEAR: u32 = 171;

/// The number of `Py_NewRef`.
pub const PY_NEW_REF: u32 = 172;

/// The number of `Py_XNewRef`.
pub const PY_XNEW_REF: u32 = 173;

/// The number of `PyObject_New`.
pub const PY_OBJECT_NEW: u32 = 174;

/// The number of `PyTuple_Pack`.
pub const PY_TUPLE_PACK: u32 = 175;

/// The number of `PyObject_CallFunctionObjArgs`.
pub const PY_OBJECT_CALL_FUNCTION_OBJ_ARGS: u32 = 176;

/// The number of `PyErr_Format`.
pub const PY_ERR_FORMAT: u32 = 177;

/// The number of `PyArg_ParseTuple`.
pub const PY_ARG_PARSE_TUPLE: u32 = 178;

/// The number of `PyArg_UnpackTuple`.
pub const PY_ARG_UNPACK_TUPLE: u32 = 179;

/// The number of `PyDict_Next`.
pub const PY_DICT_NEXT: u32 = 180;

/// The number of `Py_BuildValue`.
pub const PY_BUILD_VALUE: u32 = 181;

/// The number of `ob_base`.
pub const OB_BASE: u32 = 182;

/// The number of `PyDoc_STRVAR`.
pub const PY_DOC_STRVAR: u32 = 183;

/// The number of `Py_UNUSED`.
pub const PY_UNUSED: u32 = 184;

/// The number of `include`.
pub const INCLUDE: u32 = 185;

/// The number of `define`.
pub const DEFINE: u32 = 186;

/// The constants are the numbers that the definitions spell: of each kind of words as many as its list has, and each
/// word that has a name here at its place in the list of words. A range begins at its first word and ends before the
/// word after it.
pub fn words_have_their_numbers()
    ensures words { IsCount WORDS word_count builtin_words }
    ensures keywords { IsCount KEYWORDS keyword_count keywords }
    ensures macros { IsCount MACROS macro_count macros }
    ensures type_words { IsCount TYPE_WORDS type_word_count type_words }
    ensures statics { IsCount STATICS static_count statics }
    ensures plain_statics { PLAIN_STATICS ≡ plain_static_count }
    ensures first_type { IsNumber FIRST_TYPE first_type (codes "PyObject") }
    ensures types_end { IsNumber TYPES_END types_end (codes "Py_None") }
    ensures first_static { IsNumber FIRST_STATIC first_static (codes "Py_None") }
    ensures first_type_object { IsNumber FIRST_TYPE_OBJECT first_type_object (codes "PyList_Type") }
    ensures statics_end { IsNumber STATICS_END statics_end (codes "PyLong_FromLong") }
    ensures first_free { HasNumber first_free (codes "ob_base") }
    ensures py_return_none { IsNumber PY_RETURN_NONE py_return_none (codes "Py_RETURN_NONE") }
    ensures py_return_true { IsNumber PY_RETURN_TRUE py_return_true (codes "Py_RETURN_TRUE") }
    ensures py_return_false { IsNumber PY_RETURN_FALSE py_return_false (codes "Py_RETURN_FALSE") }
    ensures py_begin_allow_threads { IsNumber PY_BEGIN_ALLOW_THREADS py_begin_allow_threads
        (codes "Py_BEGIN_ALLOW_THREADS") }
    ensures py_end_allow_threads { IsNumber PY_END_ALLOW_THREADS py_end_allow_threads (codes "Py_END_ALLOW_THREADS") }
    ensures py_modinit_func { IsNumber PY_MODINIT_FUNC py_modinit_func (codes "PyMODINIT_FUNC") }
    ensures py_object_head { IsNumber PY_OBJECT_HEAD py_object_head (codes "PyObject_HEAD") }
    ensures py_object_var_head { IsNumber PY_OBJECT_VAR_HEAD py_object_var_head (codes "PyObject_VAR_HEAD") }
    ensures py_lt { IsNumber PY_LT py_lt (codes "Py_LT") }
    ensures py_le { IsNumber PY_LE py_le (codes "Py_LE") }
    ensures py_eq { IsNumber PY_EQ py_eq (codes "Py_EQ") }
    ensures py_ne { IsNumber PY_NE py_ne (codes "Py_NE") }
    ensures py_gt { IsNumber PY_GT py_gt (codes "Py_GT") }
    ensures py_ge { IsNumber PY_GE py_ge (codes "Py_GE") }
    ensures py_object { IsNumber PY_OBJECT py_object (codes "PyObject") }
    ensures py_var_object { IsNumber PY_VAR_OBJECT py_var_object (codes "PyVarObject") }
    ensures py_type_object { IsNumber PY_TYPE_OBJECT py_type_object (codes "PyTypeObject") }
    ensures py_method_def { IsNumber PY_METHOD_DEF py_method_def (codes "PyMethodDef") }
    ensures py_module_def { IsNumber PY_MODULE_DEF py_module_def (codes "PyModuleDef") }
    ensures py_member_def { IsNumber PY_MEMBER_DEF py_member_def (codes "PyMemberDef") }
    ensures py_get_set_def { IsNumber PY_GET_SET_DEF py_get_set_def (codes "PyGetSetDef") }
    ensures py_ssize_t { IsNumber PY_SSIZE_T py_ssize_t (codes "Py_ssize_t") }
    ensures py_none { IsNumber PY_NONE py_none (codes "Py_None") }
    ensures py_true { IsNumber PY_TRUE py_true (codes "Py_True") }
    ensures py_false { IsNumber PY_FALSE py_false (codes "Py_False") }
    ensures py_long_from_long { IsNumber PY_LONG_FROM_LONG py_long_from_long (codes "PyLong_FromLong") }
    ensures py_incref { IsNumber PY_INCREF py_incref (codes "Py_INCREF") }
    ensures py_decref { IsNumber PY_DECREF py_decref (codes "Py_DECREF") }
    ensures py_xincref { IsNumber PY_XINCREF py_xincref (codes "Py_XINCREF") }
    ensures py_xdecref { IsNumber PY_XDECREF py_xdecref (codes "Py_XDECREF") }
    ensures py_clear { IsNumber PY_CLEAR py_clear (codes "Py_CLEAR") }
    ensures py_new_ref { IsNumber PY_NEW_REF py_new_ref (codes "Py_NewRef") }
    ensures py_xnew_ref { IsNumber PY_XNEW_REF py_xnew_ref (codes "Py_XNewRef") }
    ensures py_object_new { IsNumber PY_OBJECT_NEW py_object_new (codes "PyObject_New") }
    ensures py_tuple_pack { IsNumber PY_TUPLE_PACK py_tuple_pack (codes "PyTuple_Pack") }
    ensures py_object_call_function_obj_args { IsNumber PY_OBJECT_CALL_FUNCTION_OBJ_ARGS
        py_object_call_function_obj_args (codes "PyObject_CallFunctionObjArgs") }
    ensures py_err_format { IsNumber PY_ERR_FORMAT py_err_format (codes "PyErr_Format") }
    ensures py_arg_parse_tuple { IsNumber PY_ARG_PARSE_TUPLE py_arg_parse_tuple (codes "PyArg_ParseTuple") }
    ensures py_arg_unpack_tuple { IsNumber PY_ARG_UNPACK_TUPLE py_arg_unpack_tuple (codes "PyArg_UnpackTuple") }
    ensures py_dict_next { IsNumber PY_DICT_NEXT py_dict_next (codes "PyDict_Next") }
    ensures py_build_value { IsNumber PY_BUILD_VALUE py_build_value (codes "Py_BuildValue") }
    ensures ob_base { IsNumber OB_BASE ob_base (codes "ob_base") }
    ensures py_doc_strvar { IsNumber PY_DOC_STRVAR py_doc_strvar (codes "PyDoc_STRVAR") }
    ensures py_unused { IsNumber PY_UNUSED py_unused (codes "Py_UNUSED") }
    ensures include { IsNumber INCLUDE include_word (codes "include") }
    ensures define { IsNumber DEFINE define_word (codes "define") }
{}

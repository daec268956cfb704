/// The API calls whose effect isn't described by parameters and return value alone (Python/C API Reference Manual
/// 3.11).
#[derive(Clone, Copy, Debug, PartialEq, Eq)]
pub enum Special {
    /// `Py_INCREF`.
    IncRef,
    /// `Py_DECREF`.
    DecRef,
    /// `Py_XINCREF`.
    XIncRef,
    /// `Py_XDECREF`.
    XDecRef,
    /// `Py_CLEAR`.
    Clear,
    /// `Py_NewRef`.
    NewRef,
    /// `Py_XNewRef`.
    XNewRef,
    /// `PyTuple_Pack`.
    TuplePack,
    /// `PyObject_CallFunctionObjArgs`.
    CallFunctionObjArgs,
    /// `PyErr_Format`.
    ErrFormat,
    /// `PyArg_ParseTuple`.
    ParseTuple,
    /// `PyArg_UnpackTuple`.
    UnpackTuple,
    /// `PyDict_Next`.
    DictNext,
    /// `Py_BuildValue`.
    BuildValue,
}

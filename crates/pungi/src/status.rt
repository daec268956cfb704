//! The statuses with which the program ends.

/// Every function is clean, also in a file without functions.
pub const ALL_CLEAN: u8 = 0;

/// Some function is faulty.
pub const SOME_FAULTY: u8 = 1;

/// No function is faulty, and some is neither clean nor faulty.
pub const SOME_OPEN: u8 = 2;

/// The words of the command are refused.
pub const WORDS_REFUSED: u8 = 3;

/// A file can't be read.
pub const FILE_UNREAD: u8 = 4;

/// The text of the answer could not be written whole.
pub const ANSWER_CUT: u8 = 5;

/// The file, or the text of a trial, is refused.
pub const FILE_REFUSED: u8 = 6;

/// The configuration is refused.
pub const CONFIG_REFUSED: u8 = 7;

/// Memory ran out.
pub const MEMORY_WANTED: u8 = 8;

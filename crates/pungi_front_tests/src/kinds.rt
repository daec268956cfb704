//! Kinds of tokens for the tests, by short names.

use crate::trees::{A, B, F, T};
use pungi_base::words::{PY_DOC_STRVAR, PY_NONE, PY_OBJECT, PY_OBJECT_NEW, PY_UNUSED};
use pungi_base::{Key, Kind, Name, Punct};

pub(crate) const LP: Kind = Kind::Punct(Punct::LeftParen);

pub(crate) const RP: Kind = Kind::Punct(Punct::RightParen);

pub(crate) const LB: Kind = Kind::Punct(Punct::LeftBracket);

pub(crate) const RB: Kind = Kind::Punct(Punct::RightBracket);

pub(crate) const LC: Kind = Kind::Punct(Punct::LeftBrace);

pub(crate) const RC: Kind = Kind::Punct(Punct::RightBrace);

pub(crate) const SEMI: Kind = Kind::Punct(Punct::Semicolon);

pub(crate) const COMMA: Kind = Kind::Punct(Punct::Comma);

pub(crate) const DOT: Kind = Kind::Punct(Punct::Dot);

pub(crate) const ARROW: Kind = Kind::Punct(Punct::Arrow);

pub(crate) const STEP: Kind = Kind::Punct(Punct::PlusPlus);

pub(crate) const STAR: Kind = Kind::Punct(Punct::Star);

pub(crate) const MINUS: Kind = Kind::Punct(Punct::Minus);

pub(crate) const NOT: Kind = Kind::Punct(Punct::Not);

pub(crate) const LESS: Kind = Kind::Punct(Punct::Less);

pub(crate) const ASK: Kind = Kind::Punct(Punct::Question);

pub(crate) const COLON: Kind = Kind::Punct(Punct::Colon);

pub(crate) const SET: Kind = Kind::Punct(Punct::Assign);

pub(crate) const ADD: Kind = Kind::Punct(Punct::PlusAssign);

pub(crate) const DOTS: Kind = Kind::Punct(Punct::Ellipsis);

pub(crate) const INT: Kind = Kind::Key(Key::Int);

pub(crate) const CHAR: Kind = Kind::Key(Key::Char);

pub(crate) const VOID: Kind = Kind::Key(Key::Void);

pub(crate) const STRUCT: Kind = Kind::Key(Key::Struct);

pub(crate) const ENUM: Kind = Kind::Key(Key::Enum);

pub(crate) const UNION: Kind = Kind::Key(Key::Union);

pub(crate) const TYPEDEF: Kind = Kind::Key(Key::Typedef);

pub(crate) const STATIC: Kind = Kind::Key(Key::Static);

pub(crate) const CONST: Kind = Kind::Key(Key::Const);

pub(crate) const IF: Kind = Kind::Key(Key::If);

pub(crate) const ELSE: Kind = Kind::Key(Key::Else);

pub(crate) const WHILE: Kind = Kind::Key(Key::While);

pub(crate) const DO: Kind = Kind::Key(Key::Do);

pub(crate) const FOR: Kind = Kind::Key(Key::For);

pub(crate) const SWITCH: Kind = Kind::Key(Key::Switch);

pub(crate) const CASE: Kind = Kind::Key(Key::Case);

pub(crate) const DEFAULT: Kind = Kind::Key(Key::Default);

pub(crate) const BREAK: Kind = Kind::Key(Key::Break);

pub(crate) const CONTINUE: Kind = Kind::Key(Key::Continue);

pub(crate) const RETURN: Kind = Kind::Key(Key::Return);

pub(crate) const GOTO: Kind = Kind::Key(Key::Goto);

pub(crate) const SIZEOF: Kind = Kind::Key(Key::Sizeof);

pub(crate) const NULL: Kind = Kind::Key(Key::Null);

pub(crate) const WA: Kind = Kind::Word(A);

pub(crate) const WB: Kind = Kind::Word(B);

pub(crate) const WF: Kind = Kind::Word(F);

pub(crate) const WT: Kind = Kind::Word(T);

pub(crate) const OBJECT: Kind = Kind::Word(Name(PY_OBJECT));

pub(crate) const NONE: Kind = Kind::Word(Name(PY_NONE));

pub(crate) const NEW: Kind = Kind::Word(Name(PY_OBJECT_NEW));

pub(crate) const UNUSED: Kind = Kind::Word(Name(PY_UNUSED));

pub(crate) const DOC: Kind = Kind::Word(Name(PY_DOC_STRVAR));

pub(crate) const TEXT: Kind = Kind::Text(Name(300));

pub(crate) const LETTER: Kind = Kind::Char(99);

pub(crate) const FLOAT: Kind = Kind::Float;

pub(crate) const ZERO: Kind = Kind::Int {
    value: 0,
    long: false,
    unsigned: false,
};

pub(crate) const ONE: Kind = Kind::Int {
    value: 1,
    long: false,
    unsigned: false,
};

pub(crate) const TWO: Kind = Kind::Int {
    value: 2,
    long: false,
    unsigned: false,
};

ghost use Rattle.std.specs.Prelude.{◌≡◌, ◌<◌};
ghost use Rattle.pungi_base.specs.Token.{key_number};

use pungi_base::Key;
use pungi_base::words::KEYWORDS;

/// The keyword of a number.
pub(crate) fn key_at(number: u32) -> Key
    requires { number < KEYWORDS }
    ensures { key_number result ≡ number }
{
    match number {
        0 => Key::Int,
        1 => Key::Long,
        2 => Key::Short,
        3 => Key::Char,
        4 => Key::Unsigned,
        5 => Key::Signed,
        6 => Key::Float,
        7 => Key::Double,
        8 => Key::Void,
        9 => Key::Bool,
        10 => Key::Struct,
        11 => Key::Union,
        12 => Key::Enum,
        13 => Key::Typedef,
        14 => Key::Static,
        15 => Key::Extern,
        16 => Key::Inline,
        17 => Key::Const,
        18 => Key::Volatile,
        19 => Key::Register,
        20 => Key::If,
        21 => Key::Else,
        22 => Key::While,
        23 => Key::Do,
        24 => Key::For,
        25 => Key::Switch,
        26 => Key::Case,
        27 => Key::Default,
        28 => Key::Break,
        29 => Key::Continue,
        30 => Key::Return,
        31 => Key::Goto,
        32 => Key::Sizeof,
        33 => Key::Null,
        _ => unreachable!(),
    }
}

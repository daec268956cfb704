ghost use Rattle.std.specs.Prelude.{◌≡◌};
ghost use Rattle.pungi_lex.specs.Character.{is_plain, escape_value, char_after};

fn is_plain(b: u8) -> bool
    ensures { result ≡ is_plain b }
{
    b' ' <= b && b <= b'~' && b != b'\'' && b != b'\\'
}

fn escape_value(b: u8) -> Option<u8>
    ensures { result ≡ escape_value b }
{
    match b {
        b'n' => Some(b'\n'),
        b't' => Some(b'\t'),
        b'r' => Some(b'\r'),
        b'0' => Some(b'\0'),
        b'\\' => Some(b'\\'),
        b'\'' => Some(b'\''),
        b'"' => Some(b'"'),
        _ => None,
    }
}

/// The value of a character and its length, after its first quote.
pub(crate) fn char_behind(text: &[u8]) -> Option<(u8, usize)>
    ensures { result ≡ char_after text.now }
{
    match text {
        [] => None,
        [_] => None,
        [a, b] => {
            if is_plain(*a) && *b == b'\'' {
                Some((*a, 3))
            } else {
                None
            }
        }
        [a, b, c, ..] => {
            if is_plain(*a) && *b == b'\'' {
                return Some((*a, 3));
            }
            if *a == b'\\' && *c == b'\'' {
                match escape_value(*b) {
                    None => None,
                    Some(value) => Some((value, 4)),
                }
            } else {
                None
            }
        }
    }
}

ghost use Rattle.std.specs.Prelude.{◌≡◌, ◌≤◌, length, IsTrue, IfSome, codes};
ghost use Rattle.pungi_lex.specs.Bytes.{begins_with};
ghost use Rattle.pungi_lex.specs.Comment.{close_count};

fn is_close(text: &[u8]) -> bool
    ensures close { result ≡ begins_with (codes "*/") text.now }
    ensures within { IsTrue result → 2 ≤ length text.now }
{
    match text {
        [] => false,
        [_] => false,
        [a, b, ..] => *a == b'*' && *b == b'/',
    }
}

/// How many bytes come before the end of a comment that is open, with that end.
pub(crate) fn close_count(text: &[u8]) -> Option<usize>
    ensures count { result ≡ close_count text.now }
    ensures within { IfSome result (λ count. (2 ≤ count) × (count ≤ length text.now)) }
{
    for i in 0..text.len() {
        let (_, behind) = text.split_at(i);
        if is_close(behind) {
            return Some(i + 2);
        }
    }
    None
}

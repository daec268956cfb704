ghost use Rattle.std.specs.Prelude.{◌≡◌, ◌≤◌, length, false, IfSome};
ghost use Rattle.pungi_lex.specs.Quote.{quote_count};

/// How many bytes come before the quote that ends a string literal, with that quote.
pub(crate) fn quote_count(text: &[u8]) -> Option<usize>
    ensures count { result ≡ quote_count false text.now }
    ensures within { IfSome result (λ count. (1 ≤ count) × (count ≤ length text.now)) }
{
    let mut taken = false;
    for (i, b) in text.iter().enumerate() {
        if *b == b'\n' {
            return None;
        }
        if !taken && *b == b'"' {
            return Some(i + 1);
        }
        taken = !taken && *b == b'\\';
    }
    None
}

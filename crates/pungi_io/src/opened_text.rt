ghost use Rattle.std.specs.Prelude.{◌≡◌, ◌≤◌, length};
ghost use Rattle.pungi_io.specs.OpenedText.{Opened, just_opened, on_last, with_read};

use crate::History;
use std::marker::Model;

/// A text that was opened, and what reads gave of it. It takes a byte: clauses alone see its name and bytes.
#[derive(Drop)]
pub struct OpenedText {
    name: History,
    bytes: History,
    ended: bool,
}

impl Model for OpenedText {
    ghost use Rattle.std.specs.List.{concat};
    ghost use Rattle.pungi_io.specs.OpenedText.{Opened};

    ghost Value = { Opened };

    ghost view = { λ t. record {
      name = concat t.name.pieces;
      bytes = concat t.bytes.pieces;
      ended = t.ended;
    } };
}

impl OpenedText {
    /// A text of which nothing was read yet.
    pub fn new(name: &str) -> OpenedText
        ensures { result ≡ just_opened name.now }
    {
        let mut pieces = History::new();
        pieces.add(name.as_bytes());
        OpenedText {
            name: pieces,
            bytes: History::new(),
            ended: false,
        }
    }

    /// Notes a read that put so many bytes at the front of a buffer.
    pub fn read(&mut self, buf: &[u8], count: usize)
        requires { count ≤ length buf.now }
        ensures { self.new ≡ with_read count buf.now self.old }
    {
        self.bytes.add(&buf[..count]);
        self.ended = count == 0 && !buf.is_empty();
    }
}

/// Notes a read of the text that was opened last, if one was.
pub fn read_last(texts: &mut Vec<OpenedText>, buf: &[u8], count: usize)
    requires { count ≤ length buf.now }
    ensures { texts.new.items ≡ on_last (with_read count buf.now) texts.old.items }
{
    if let Some(last) = texts.last_mut() {
        last.read(buf, count);
    }
}

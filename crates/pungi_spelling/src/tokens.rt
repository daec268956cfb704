ghost use Rattle.std.specs.Prelude.{◌≡◌, [], ◌∷◌, ◌++◌, OnOk};
ghost use Rattle.pungi_tree.specs.Tokens.{mark as mark_of, key as key_of, keys_flat, texts_flat, consts_flat};
ghost use Rattle.pungi_tree.specs.Tokens.{stars_flat, tag_flat};

use pungi_base::{Key, Kind, Memory, Name, Pos, Punct};

/// Adds a token.
pub(crate) fn put(out: &mut Vec<Kind>, kind: Kind) -> Result<(), Memory>
    ensures { OnOk result (out.new.items ≡ out.old.items ++ kind ∷ []) }
{
    out.push(kind)?;
    Ok(())
}

pub(crate) fn mark(out: &mut Vec<Kind>, mark: Punct) -> Result<(), Memory>
    ensures { OnOk result (out.new.items ≡ out.old.items ++ mark_of mark ∷ []) }
{
    put(out, Kind::Punct(mark))
}

pub(crate) fn keyword(out: &mut Vec<Kind>, key: Key) -> Result<(), Memory>
    ensures { OnOk result (out.new.items ≡ out.old.items ++ key_of key ∷ []) }
{
    put(out, Kind::Key(key))
}

pub(crate) fn word(out: &mut Vec<Kind>, name: Name) -> Result<(), Memory>
    ensures { OnOk result (out.new.items ≡ out.old.items ++ Kind.Word name ∷ []) }
{
    put(out, Kind::Word(name))
}

pub(crate) fn put_texts(out: &mut Vec<Kind>, texts: &[Name]) -> Result<(), Memory>
    ensures { OnOk result (out.new.items ≡ out.old.items ++ texts_flat texts.now) }
{
    for text in texts {
        out.push(Kind::Text(*text))?;
    }
    Ok(())
}

pub(crate) fn put_keys(out: &mut Vec<Kind>, keys: &[Key]) -> Result<(), Memory>
    ensures { OnOk result (out.new.items ≡ out.old.items ++ keys_flat keys.now) }
{
    for key in keys {
        out.push(Kind::Key(*key))?;
    }
    Ok(())
}

pub(crate) fn put_consts(out: &mut Vec<Kind>, count: u32) -> Result<(), Memory>
    ensures { OnOk result (out.new.items ≡ out.old.items ++ consts_flat count) }
{
    for _ in 0..count {
        out.push(Kind::Key(Key::Const))?;
    }
    Ok(())
}

pub(crate) fn put_stars(out: &mut Vec<Kind>, stars: &[u32]) -> Result<(), Memory>
    ensures { OnOk result (out.new.items ≡ out.old.items ++ stars_flat stars.now) }
{
    for star in stars {
        out.push(Kind::Punct(Punct::Star))?;
        put_consts(out, *star)?;
    }
    Ok(())
}

pub(crate) fn put_tag(out: &mut Vec<Kind>, tag: &Option<(Name, Pos)>) -> Result<(), Memory>
    ensures { OnOk result (out.new.items ≡ out.old.items ++ tag_flat tag.now) }
{
    match tag {
        None => Ok(()),
        Some((name, _)) => word(out, *name),
    }
}

//! Parts of a skin, each with its key.

ghost use Rattle.std.specs.Prelude.{◌≡◌, map};
ghost use Rattle.mad_page_json.specs.Named.{has_key, named_said};

/// A part of a skin, and the key that it has in an object.
#[derive(Clone, Copy)]
pub struct Named<S> {
    /// The key.
    pub key: &'static str,
    /// The part.
    pub part: S,
}

/// Whether one of these parts has this key.
pub(crate) fn has_key<S: Copy>(parts: &[Named<S>], key: &str) -> bool
    ensures { result ≡ has_key key.now (map named_said parts.now) }
{
    for named in parts {
        if named.key == key {
            return true;
        }
    }
    false
}

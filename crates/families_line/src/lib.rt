// One line of the family list (request 2026-01): its key, whether a line with that key may stand there, and the mark of its name.
#![tactic(auto)]

ghost use Rattle.std.specs.Prelude.{◌≡◌, ◌<◌};
ghost use Rattle.families_line.specs.Line.{key_of, may_stand, mark_of};

// The key of a line: `name=` or `same=`.
#[derive(Clone, Copy)]
pub enum Key {
    Name,
    Same,
}

// The key of a line with this text, if it has one.
#[tactic(auto, using(crate::proofs::Steps::behind_by))]
pub fn key_of(t: &[u8]) -> Option<Key>
    ensures { result ≡ key_of t.now }
{
    if t.starts_with(b"name=") {
        Some(Key::Name)
    } else if t.starts_with(b"same=") {
        Some(Key::Same)
    } else {
        None
    }
}

// Whether a line with this key, if it has one, may stand behind so many families, the newest of which has so many names.
pub fn may_stand(key: Option<Key>, families: usize, size: usize) -> bool
    ensures { result ≡ may_stand key families size }
{
    match key {
        Some(Key::Name) => (families == 0 || 1 < size) && families < 256,
        Some(Key::Same) => 0 < families && size < 8,
        None => false,
    }
}

// A number below 16,384 that equal names share: it tells most names apart.
#[tactic(auto, using(crate::proofs::Steps::marking))]
pub fn mark_of(name: &[u8]) -> usize
    ensures { (result ≡ mark_of name.now) × (result < 16384) }
{
    let mut n = 0;
    for b in name {
        n = (n * 31 + usize::from(*b)) % 16_384;
    }
    n
}

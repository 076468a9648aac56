// The one way to a name (document 01, "What a record holds": "name (its place and length in the stream)"): a place and a length give the
// caller's own bytes, a view and no copy, that are compared or written.
#![tactic(auto)]

ghost use Rattle.std.specs.Prelude.{◌≡◌};
ghost use Rattle.name.specs.Part.{part_of};

use rules::Record;

// The part of s where a command, a query, a family list or a width list says that a name is, cut where s ends.
pub fn name_at<'a>(s: &'a [u8], place: usize, len: usize) -> &'a [u8]
    ensures { result.now ≡ part_of s.now place len }
{
    let rest = &s[place.min(s.len())..];
    &rest[..len.min(rest.len())]
}

// The name of a record of the stream s.
pub fn name_of<'a>(s: &'a [u8], r: Record) -> &'a [u8]
    ensures { result.now ≡ part_of s.now r.place r.len }
{
    name_at(s, r.place as usize, r.len as usize)
}

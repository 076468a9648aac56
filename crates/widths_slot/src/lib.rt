// The slot of a font in the table of widths: its name is looked for among those of the list.
#![tactic(auto)]

ghost use Rattle.std.specs.Prelude.{◌≡◌, ◌≤◌, ◌<◌, length};
ghost use Rattle.rules.specs.Bytes.{same};
ghost use Rattle.name.specs.Part.{part_of};
ghost use Rattle.widths_table.specs.Slots.{slot_in};

use widths_table::FontName;

// Whether a font has this name.
pub fn is_named(list: &[u8], own: FontName, name: &[u8]) -> bool
    ensures { result ≡ same (part_of list.now own.place own.len) name.now }
{
    scan_lex::same_bytes(
        name::name_at(list, own.place as usize, own.len as usize),
        name,
    )
}

// The slot of the font whose name is a part of s, 32 where there is none. The newest font is looked at first. The names are two rows here,
// as they stand in the reader's scratch row of numbers, which the definitions of a reading's state speak of.
#[tactic(auto, unfolding(widths_table::specs::Slots::slot_in))]
pub fn slot(
    list: &[u8],
    places: &[u32],
    lens: &[u32],
    fonts: usize,
    s: &[u8],
    place: usize,
    len: usize,
) -> usize
    requires { (fonts ≤ length places.now) × (fonts ≤ length lens.now) }
    ensures { result ≡ slot_in list.now places.now lens.now fonts (part_of s.now place len) }
{
    let name = name::name_at(s, place, len);
    for k in (0..fonts).rev() {
        let own = FontName {
            place: places[k],
            len: lens[k],
        };
        if is_named(list, own, name) {
            return k;
        }
    }
    32
}

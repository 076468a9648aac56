// What a row of records and one of entries hold before they are filled.
#![tactic(auto)]

ghost use Rattle.std.specs.Prelude.{◌≡◌};
ghost use Rattle.small_row.specs.Blank.{blank_record, blank_entry};

use rules::{Entry, Record};

pub fn no_record() -> Record
    ensures { result ≡ blank_record }
{
    Record {
        ordinal: 0,
        page: 0,
        h: 0,
        v: 0,
        font: 0,
        size: 0,
        place: 0,
        len: 0,
        index: 0,
        gap: 0,
    }
}

pub fn no_entry() -> Entry
    ensures { result ≡ blank_entry }
{
    Entry {
        command: 0,
        letter: 0,
        scheme: 0,
        ordinal: 0,
        place: 0,
        len: 0,
        h: 0,
        v: 0,
    }
}

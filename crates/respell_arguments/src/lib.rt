// The arguments of a command in the house spelling (document 01, "House spelling": "one space before each argument, integers
// shortest"), and lines of one letter and one number. A name is written from where it stands in the stream. What each function writes is
// defined in respell_model.
#![tactic(auto)]

ghost use Rattle.std.specs.Prelude.{◌≡◌, ◌∷◌};
ghost use Rattle.respell_bytes.specs.Puts.{Puts};
ghost use Rattle.respell_model.specs.Lines.{signed_arg, plain_arg, name_arg, args_from};

use respell_bytes::Sheet;

// A number that is moved up.
#[tactic(auto, using(respell_model::proofs::Sheets::one_by_one))]
fn put_signed_arg(sheet: &mut Sheet, n: u32)
    ensures { Puts (signed_arg n) sheet.old sheet.new }
{
    sheet.put(b' ');
    sheet.put_signed(n);
}

// One that is not.
#[tactic(auto, using(respell_model::proofs::Sheets::one_by_one))]
pub fn put_plain_arg(sheet: &mut Sheet, n: u32)
    ensures { Puts (plain_arg n) sheet.old sheet.new }
{
    sheet.put(b' ');
    sheet.put_decimal(n);
}

// A name by its place and length in the stream.
#[tactic(auto, using(respell_model::proofs::Sheets::one_by_one))]
pub fn put_name_arg(sheet: &mut Sheet, s: &[u8], place: usize, len: usize)
    ensures { Puts (name_arg s.now place len) sheet.old sheet.new }
{
    sheet.put(b' ');
    sheet.put_all(name::name_at(s, place, len));
}

// n integers that stand in the stream from a place on.
#[tactic(auto, using(respell_model::proofs::Sheets::one_by_one, crate::proofs::Arguments::arguments))]
pub fn put_args(sheet: &mut Sheet, s: &[u8], from: usize, n: usize)
    ensures { Puts (args_from n s.now from) sheet.old sheet.new }
{
    let mut i = from;
    for _ in 0..n {
        let Some(a) = scan_arguments::one_at(s, i) else {
            return;
        };
        put_signed_arg(sheet, a.number);
        i = a.next;
    }
}

// One letter and a number that is moved up.
#[tactic(auto, using(respell_model::proofs::Sheets::one_by_one))]
pub fn put_signed_line(sheet: &mut Sheet, letter: u8, n: u32)
    ensures { Puts (letter ∷ signed_arg n) sheet.old sheet.new }
{
    sheet.put(letter);
    put_signed_arg(sheet, n);
}

#[tactic(auto, using(respell_model::proofs::Sheets::one_by_one))]
pub fn put_plain_line(sheet: &mut Sheet, letter: u8, n: u32)
    ensures { Puts (letter ∷ plain_arg n) sheet.old sheet.new }
{
    sheet.put(letter);
    put_plain_arg(sheet, n);
}

// Rows of structs of plain data: a setter and a getter of one place, each proved once for every type that is copied.
#![tactic(auto)]

ghost use Rattle.std.specs.Prelude.{◌≡◌, ◌<◌, length, set, get_or};

#[inline(always)]
pub fn put<T: Copy>(row: &mut [T], i: usize, x: T)
    requires { i < length row.old }
    ensures { row.new ≡ set row.old i x }
{
    row[i] = x;
}

#[inline(always)]
pub fn get<T: Copy>(row: &[T], i: usize) -> T
    requires { i < length row.now }
    ensures { (d : T) → result ≡ get_or row.now i d }
{
    row[i]
}

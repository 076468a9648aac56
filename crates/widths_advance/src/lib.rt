// The advance of a glyph (document 01, "Widths").
#![tactic(auto)]

ghost use Rattle.std.specs.Prelude.{◌≡◌, ◌+◌, ◌-◌, ◌*◌, ◌/◌, ◌≤◌};
ghost use Rattle.rules.specs.Widths.{advance};

// The advance for width w, size s, unitwidth k and the second number m of `x r`.
pub fn advance(w: u32, s: u32, k: u32, m: u32) -> u64
    requires w_bound { (w ≤ 100000) × (s ≤ 99999999) }
    requires le_k { (1 ≤ k) × (k ≤ 100000) × (1 ≤ m) × (m ≤ 99999999) }
    ensures { result ≡ advance w s k m }
{
    let size = 2 * (w as u64) * (s as u64);
    let unit = (k as u64) * (m as u64);
    let twice = 2 * (k as u64) * (m as u64);
    (m as u64) * ((size + unit) / twice)
}

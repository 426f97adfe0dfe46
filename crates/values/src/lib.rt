// The nine operations on values, which are i32: each answers what specs/Value.antt says.
// A sum or a difference that lies past either end of the range stops at that end.
#![tactic(auto)]

ghost use Rattle.std.specs.Prelude.{◌≡◌};
ghost use Rattle.values.specs.Value as value;

// A constant word of 16 bits, in two's complement.
#[tactic(auto, using(crate::proofs::LocalLaws::constant_read))]
pub fn constant(word: u16) -> i32
    ensures { result ≡ value.constant word }
{
    i32::from(word.cast_signed())
}

// The service order: higher priority, then lower source number.
fn served_before(p: i32, s: i32, q: i32, t: i32) -> i32
    ensures { result ≡ value.served_before p s q t }
{
    i32::from(q < p || (p == q && s < t))
}

// The value of an operation by its number. A number that no operation has gives 0: the reader of tables lets none through.
#[tactic(auto, using(crate::proofs::LocalLaws::sum_read, crate::proofs::LocalLaws::difference_read))]
pub fn result(op: u16, x: i32, y: i32, z: i32, t: i32) -> i32
    ensures { result ≡ value.result op x y z t }
{
    match op {
        0 | 1 => x,
        2 => x.saturating_add(y),
        3 => x.saturating_sub(y),
        4 => x.max(y),
        5 => x.min(y),
        6 => i32::from(x < y),
        7 => { if x == 0 { z } else { y } }
        8 => served_before(x, y, z, t),
        _ => 0,
    }
}

//! Degrees in which the sphere has a class of row 1.
ghost use Rattle.std.specs.Prelude.{◌≡◌, ℕ, ◌^◌, ◌≤◌, pos, false, IfSome, IfNone};
ghost use Rattle.std.specs.Int.{is_power_of_two};

/// The v for which the degree `t` is 2^v, where there is one and the degree is at most `last`.
pub(crate) fn exponent_in(t: i32, last: u16) -> Option<u32>
    ensures is { IfSome result (λ v. t ≡ pos (2 ^ v)) }
    ensures within { IfSome result (λ v. 2 ^ v ≤ last) }
    ensures none { IfNone result ((n : ℕ) → t ≡ pos n → n ≤ last → is_power_of_two n ≡ false) }
{
    if t <= 0 || t > i32::from(last) {
        return None;
    }
    let n = t as u32;
    let v = n.ilog2();
    if 2u32.pow(v) == n { Some(v) } else { None }
}

//! How far degrees are above a bottom degree.
ghost use Rattle.std.specs.Prelude.{◌≡◌, ◌<◌, ◌^◌, IfSome};
ghost use Rattle.bidegree.specs.Above.{above_of};

/// How many degrees `t` is above `bottom`, none where it is below.
pub fn above_of(bottom: i32, t: i32) -> Option<u64>
    ensures above { result ≡ above_of bottom t }
    ensures within { IfSome result (λ k. k < 2 ^ 32) }
{
    u64::try_from(i64::from(t) - i64::from(bottom)).ok()
}

#[cfg(test)]
mod tests {
    use super::*;

    #[test]
    fn degrees_above_a_bottom(rt: HostRuntime) {
        for (bottom, t, above) in [
            (0, 0, Some(0)),
            (-3, 4, Some(7)),
            (5, 4, None),
            (i32::MIN, i32::MAX, Some(4294967295)),
            (i32::MAX, i32::MIN, None),
        ] {
            assert_eq!(rt; above_of(bottom, t), above);
        }
    }
}

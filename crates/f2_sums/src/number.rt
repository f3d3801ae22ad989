//! The numbers of sums.
ghost use Rattle.std.specs.Prelude.{◌≡◌, ◌<◌, ◌≤◌, map, length};
ghost use Rattle.std.specs.List.{All};
ghost use Rattle.std.specs.Simd.Lanes.{mask_l};
ghost use Rattle.f2_vec.specs.Vectors.{bit};

use f2_vec::BitVec;

/// The coordinates of the row at these places, as the bits of a number, that of the first place the lowest.
pub fn index_at(cols: usize, row: &BitVec, places: &[usize]) -> usize
    requires row { length row.now ≡ cols }
    requires places { All (λ p. p < cols) places.now }
    requires few { length places.now ≤ 32 }
    ensures { result ≡ mask_l (map (bit row.now) places.now) }
{
    let mut index = 0;
    let mut j = places.len();
    while j > 0 {
        j -= 1;
        index = index * 2 + row.get_number(places[j]);
    }
    index
}

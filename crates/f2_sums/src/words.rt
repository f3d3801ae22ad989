//! Words of rows, of 64 coordinates each.
ghost use Rattle.std.specs.Prelude.{◌≡◌, ℕ, ◌*◌, ◌<◌, false};
ghost use Rattle.f2_vec.specs.Vectors.{bit};
ghost use Rattle.f2_sums.specs.Inside.Tables.{AreWithinWords};

use f2_vec::BitVec;

/// Words of vectors: from the first up to one past the last.
#[derive(Debug, Drop)]
pub struct Words {
    pub from: usize,
    pub to: usize,
}

/// The words from the first up to the last in which one of the rows is not zero.
pub fn words_of(rows: &[BitVec]) -> Words
    ensures { AreWithinWords result.from result.to rows.now }
{
    let mut from = usize::MAX;
    let mut to = 0;
    for row in rows {
        from = from.min(first_word(row));
        let end = row.words_up_to_last();
        if to < end {
            to = end;
        }
    }
    Words { from, to }
}

/// The word of the first 1, the number of words or more where there is none.
fn first_word(row: &BitVec) -> usize
    ensures { (k : ℕ) → k < 64 * result → bit row.now k ≡ false }
{
    match row.first_one() {
        Some(place) => place / 64,
        None => row.len() / 64,
    }
}

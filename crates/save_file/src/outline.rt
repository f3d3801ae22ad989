//! The parts of a body: its numbers, and where its matrices are.
ghost use Rattle.std.specs.Prelude.{◌≡◌, ◌≢◌, ◌+◌, ◌*◌, ◌≤◌, ◌<◌, length, take, drop, MatchOption};
ghost use Rattle.std.specs.Option.{option_map};
ghost use Rattle.std.specs.Int.{w16, w64};
ghost use Rattle.save_file.specs.Reading.{number_at, packed_len};
ghost use Rattle.save_file.specs.Inside.Outline.{packed_of, packed_at, end_of, pair_of, pair_at, pair_end, HasQuasiPart, quasi_part_at, outline_of, outline_at, IsWhole, addition_outline_of, addition_outline_at, IsWholeAddition};

/// The kind of a body that is a square's, without a quasi-inverse.
pub(crate) const SQUARE: u8 = 1;

/// The kind of a body that is a square's, with its quasi-inverse.
pub(crate) const REDUCED: u8 = 2;

/// The kind of a body that is the quasi-inverse of a square that is there.
pub(crate) const QUASI: u8 = 3;

/// How many bytes each body of a square has: its kind, row and degree, and the numbers of its two matrices.
pub(crate) const LEAST_LEN: usize = 37;

/// How many bytes each body of a quasi-inverse has: its kind, row and degree, how many image rows there are, and the dimensions.
pub(crate) const LEAST_QUASI_LEN: usize = 29;

/// The rows of a matrix as they stand in a body, each in as many bytes as its length takes.
#[derive(Clone, Copy)]
pub(crate) struct PackedRows<'a> {
    pub(crate) height: u64,
    pub(crate) cols: u64,
    pub(crate) bytes: &'a [u8],
}

/// The image rows and the chosen preimages as they stand in a body.
#[derive(Clone, Copy)]
pub(crate) struct PackedPreimages<'a> {
    pub(crate) image: PackedRows<'a>,
    pub(crate) chosen: PackedRows<'a>,
}

/// The parts of a square's body.
#[derive(Clone, Copy)]
pub(crate) struct Parts<'a> {
    pub(crate) s: u16,
    pub(crate) above: u16,
    pub(crate) images: PackedRows<'a>,
    pub(crate) kernel: PackedRows<'a>,
    pub(crate) quasi: Option<PackedPreimages<'a>>,
}

/// The parts of a quasi-inverse's body.
#[derive(Clone, Copy)]
pub(crate) struct AdditionParts<'a> {
    pub(crate) s: u16,
    pub(crate) above: u16,
    pub(crate) quasi: PackedPreimages<'a>,
}

/// The parts of these bytes, none where they are not a square's, or not as many as their numbers say.
pub(crate) fn parts_of(body: &[u8]) -> Option<Parts<'_>>
    ensures { MatchOption result (IsWhole body.now → ⊥) (λ p. IsWhole body.now × (outline_of p ≡ outline_at body.now)) }
{
    if body.len() < LEAST_LEN {
        return None;
    }
    let images = packed_rows(body, 5)?;
    let place = 21 + images.bytes.len();
    let kernel = packed_rows(body, place)?;
    let end = place + 16 + kernel.bytes.len();
    let quasi = quasi_part(body, end, images.cols, kernel.cols)?;
    Some(Parts {
        s: u16_at(body, 1),
        above: u16_at(body, 3),
        images,
        kernel,
        quasi,
    })
}

/// What stands behind the kernel rows, which end at this place: nothing in a body of the first kind, and in one of the second the
/// image rows of length `w` and the preimages of length `v`. None where it is something else, or does not end with the bytes.
fn quasi_part(body: &[u8], end: usize, w: u64, v: u64) -> Option<Option<PackedPreimages<'_>>>
    requires least { 1 ≤ length body.now }
    requires within { end ≤ length body.now }
    ensures { MatchOption result (HasQuasiPart body.now end w v → ⊥)
        (λ q. HasQuasiPart body.now end w v × (option_map pair_of q ≡ quasi_part_at body.now end w v)) }
{
    match body[0] {
        SQUARE if end == body.len() => Some(None),
        REDUCED if body.len() - end >= 8 => {
            let count = u64_at(body, end);
            Some(Some(packed_preimages(body, end + 8, count, w, v)?))
        }
        _ => None,
    }
}

/// The parts of these bytes, none where they are not a quasi-inverse's, or not as many as their numbers say.
pub(crate) fn addition_parts_of(body: &[u8]) -> Option<AdditionParts<'_>>
    ensures { MatchOption result (IsWholeAddition body.now → ⊥)
        (λ p. IsWholeAddition body.now × (addition_outline_of p ≡ addition_outline_at body.now)) }
{
    if body.len() < LEAST_QUASI_LEN || body[0] != QUASI {
        return None;
    }
    let (w, v) = (u64_at(body, 13), u64_at(body, 21));
    let quasi = packed_preimages(body, 29, u64_at(body, 5), w, v)?;
    Some(AdditionParts {
        s: u16_at(body, 1),
        above: u16_at(body, 3),
        quasi,
    })
}

/// So many image rows of length `w` from this place on, and behind them as many preimages of length `v`. None where these do not
/// end with the bytes.
fn packed_preimages(
    bytes: &[u8],
    place: usize,
    count: u64,
    w: u64,
    v: u64,
) -> Option<PackedPreimages<'_>>
    requires { place ≤ length bytes.now }
    ensures { MatchOption result (pair_end count w v place ≢ length bytes.now)
        (λ p. (pair_end count w v place ≡ length bytes.now) × (pair_of p ≡ pair_at count w v place bytes.now)) }
{
    let (image, rest) = rows_of(&bytes[place..], count, w)?;
    let (chosen, rest) = rows_of(rest, count, v)?;
    if !rest.is_empty() {
        return None;
    }
    Some(PackedPreimages { image, chosen })
}

/// So many rows of length `n`, which the bytes begin with, and the bytes behind them. None where there are fewer bytes.
fn rows_of(bytes: &[u8], count: u64, n: u64) -> Option<(PackedRows<'_>, &[u8])>
    ensures { MatchOption result (length bytes.now < count * packed_len n)
        (λ r. (count * packed_len n ≤ length bytes.now)
        × (packed_of r.0 ≡ record { height = count; cols = n; bytes = take (count * packed_len n) bytes.now })
        × (r.1.now ≡ drop (count * packed_len n) bytes.now)) }
{
    let len = count.checked_mul(n.div_ceil(8))?;
    if len > bytes.len() as u64 {
        return None;
    }
    let (rows, rest) = bytes.split_at(len as usize);
    Some((
        PackedRows {
            height: count,
            cols: n,
            bytes: rows,
        },
        rest,
    ))
}

/// The rows of the matrix from this place on, none where the bytes end before it does.
fn packed_rows(bytes: &[u8], place: usize) -> Option<PackedRows<'_>>
    requires { place ≤ length bytes.now }
    ensures { MatchOption result (length bytes.now < end_of place bytes.now)
        (λ p. (end_of place bytes.now ≤ length bytes.now) × (packed_of p ≡ packed_at place bytes.now)) }
{
    if bytes.len() - place < 16 {
        return None;
    }
    let height = u64_at(bytes, place);
    let cols = u64_at(bytes, place + 8);
    let (rows, _) = rows_of(&bytes[place + 16..], height, cols)?;
    Some(rows)
}

/// The number in the two bytes from this place on, the higher byte first.
fn u16_at(bytes: &[u8], place: usize) -> u16
    requires { place + 2 ≤ length bytes.now }
    ensures { result ≡ number_at w16 place bytes.now }
{
    let front = &bytes[place..place + 2];
    u16::from_be_bytes([front[0], front[1]])
}

/// The number in the eight bytes from this place on, the highest byte first.
fn u64_at(bytes: &[u8], place: usize) -> u64
    requires { place + 8 ≤ length bytes.now }
    ensures { result ≡ number_at w64 place bytes.now }
{
    let front = &bytes[place..place + 8];
    u64::from_be_bytes([
        front[0], front[1], front[2], front[3], front[4], front[5], front[6], front[7],
    ])
}

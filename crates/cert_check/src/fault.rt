//! Why a table does not certify a range.
use thiserror::Error;

/// Why a table does not certify a range: the first square (s, t) of the range, by row and in a row by degree, at which
/// something is wrong, and what. `t` is the internal degree.
#[derive(Clone, Copy, Debug, PartialEq, Eq, Drop, Error)]
pub enum CertFault {
    /// The square is not there.
    #[error("missing square ({s},{t})")]
    Missing { s: u16, t: i32 },
    /// The square has no quasi-inverse.
    #[error("no quasi-inverse at ({s},{t})")]
    NoQuasi { s: u16, t: i32 },
    /// The image of d_s in degree t is not the kernel of d_(s-1), and for row 0 not all of the module.
    #[error("not exact at ({s},{t})")]
    Inexact { s: u16, t: i32 },
    /// A generator of the square is superfluous: it stands in a vector of the kernel of d_s.
    #[error("not minimal at ({s},{t})")]
    NotMinimal { s: u16, t: i32 },
}

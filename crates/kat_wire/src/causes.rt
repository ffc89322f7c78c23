//! Why a design was passed over.

/// Why a design that comes earlier in the listing is neither refuted nor proved.
#[derive(Clone, Copy, PartialEq, Eq, Debug)]
pub enum Cause {
    /// A point at which a query of the design may answer otherwise.
    OpenCert,
    /// The search took as many leaves as it may.
    Spent,
    /// Elimination would make too many rows.
    Rows,
    /// A number passes the limit of arithmetic.
    Wide,
    /// The design is proved, and its file is longer than a file may be.
    Long,
}

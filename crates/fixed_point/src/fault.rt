use thiserror::Error;

/// Why a text is no number of the language.
#[derive(Clone, Copy, Debug, PartialEq, Eq, Error)]
pub enum NumberFault {
    /// It has not the form of a number.
    #[error("not a number")]
    NotNumber,
    /// It has the form of a number, and more decimals than a number may have.
    #[error("more than 6 decimals")]
    TooLong,
    /// It is a number whose size is past the greatest one.
    #[error("a size above 1000000")]
    TooFar,
}

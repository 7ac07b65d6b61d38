use thiserror::Error;

/// Why a text is no version, or no constraint.
#[derive(Clone, Copy, Debug, PartialEq, Eq, Drop, Error)]
pub enum VersionFault {
    /// The text is not two or three parts of decimal digits with dots between them.
    #[error("not a version")]
    NotAVersion,
    /// The text has that form, and a part is past 18,446,744,073,709,551,615.
    #[error("a part of the version is too large")]
    PartTooLarge,
    /// The signs before the version are none of `=`, `<`, `>`, `<=`, `>=` and `~>`.
    #[error("no such operator")]
    NoSuchOperator,
    /// One number alone follows `~>`, which needs two parts or three.
    #[error("~> needs a version of two or three parts")]
    PessimisticOnePart,
}

//! Why a use of a macro is not replaced.

/// Why a use of a macro is not replaced by tokens.
#[derive(Clone, Copy, Debug, PartialEq, Eq)]
pub enum Failure {
    /// A call has not as many arguments as parameters, or no `)`.
    Arguments,
    /// `##` gives no single token.
    Paste,
    /// More is made than there may be.
    TokensMany,
    /// The tokens that the source was given with end where one more is asked for.
    Cut,
}

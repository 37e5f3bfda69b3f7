//! Whether a typed source calls the library's `getchar`.
mod expressions;
mod statements;

pub use statements::calls_getchar;

//! Files of the host, by public calls: what is loaded and saved in a folder, and what of it fails; values of the
//! functions of `math.h` at named points; and texts of the C library's `printf`. There is nothing here but tests: in a
//! crate of their own they prove no other crate a second time.
#![tactic(auto)]

#[cfg(test)]
mod tests;

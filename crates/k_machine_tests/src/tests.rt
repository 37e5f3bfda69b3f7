//! One file for what is tested.
mod pages;
mod registers;
mod shadows;
mod validity;

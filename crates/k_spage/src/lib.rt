//! The shadow of memory: one row of times for each element number, in pages that are made when they are reserved.
#![tactic(auto)]

mod pages;
mod shadow_pages;

pub use shadow_pages::ShadowPages;

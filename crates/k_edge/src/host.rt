//! Adapters over the real thing. They tell no content, and count in 64 bits.
pub mod files;
pub mod saving;
pub mod streams;

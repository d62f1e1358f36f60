//! Ranges alone.

mod comparison;
mod length;
mod measure;
mod page;
mod parts;
mod reading;

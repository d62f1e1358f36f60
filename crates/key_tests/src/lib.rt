//! Tests of keys and ranges: values from outside, and custom key types.
#![tactic(auto)]

#[cfg(test)]
mod algebra;
#[cfg(test)]
mod expecting;
#[cfg(test)]
mod keys;

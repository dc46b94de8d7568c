//! Tests of single crates, for what no clause says: that calls succeed, and what they then make. A
//! body may report an allocation failure at each call, or leave out what it would write.
#![tactic(auto)]

#[cfg(test)]
mod calls;
#[cfg(test)]
mod digests;
#[cfg(test)]
mod galleries;
#[cfg(test)]
mod log;
#[cfg(test)]
mod templates;
#[cfg(test)]
mod trace;

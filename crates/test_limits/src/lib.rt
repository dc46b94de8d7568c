//! Tests of sites that the program doesn't show: over plugins that it doesn't have, and under a
//! limit on the steps of statements. Whatever the limit, a command is carried out, or it is refused
//! as `Store` and every row is as it was.
#![tactic(auto)]

#[cfg(test)]
mod calls;
#[cfg(test)]
mod climbing;
#[cfg(test)]
mod crowded;
#[cfg(test)]
mod inactive;
#[cfg(test)]
mod limits;
#[cfg(test)]
mod replies;
#[cfg(test)]
mod sites;
#[cfg(test)]
mod switched;

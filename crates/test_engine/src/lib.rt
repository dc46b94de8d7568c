//! Tests of what no run of the program shows, of the crates below `site_program`: what is refused
//! of names and plugins, passes and asks over plugins that are not the bundle's, pages by turns,
//! alone and among each other, what the cache of pieces keeps, site files that are given as bytes,
//! copies, the ends of the program, and the names of all refusals. Each goes over a table of
//! inputs, and what is expected is worked out from the rules.
#![tactic(auto)]

#[cfg(test)]
mod asking;
#[cfg(test)]
mod asks;
#[cfg(test)]
mod caches;
#[cfg(test)]
mod callbacks;
#[cfg(test)]
mod copies;
#[cfg(test)]
mod inputs;
#[cfg(test)]
mod interleaved;
#[cfg(test)]
mod names;
#[cfg(test)]
mod passes;
#[cfg(test)]
mod plugin_lists;
#[cfg(test)]
mod plugins;
#[cfg(test)]
mod refusals;
#[cfg(test)]
mod runs;
#[cfg(test)]
mod site_files;
#[cfg(test)]
mod turns;

//! What a statement over one table of a database reads and leaves: definitions and lemmas that the
//! crates above share. There is no code in it.
#![tactic(auto)]

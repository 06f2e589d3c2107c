//! Tests of values that are built in code: calls succeed while there is memory, at both ends of the
//! sizes of these values. Tables of cases over texts are programs of their own (`NAME_cases`). The
//! tests are apart from the crates that they test, since a crate with tests is proved twice.
#![tactic(auto)]

#[cfg(test)]
mod base;
#[cfg(test)]
mod code_maps;
#[cfg(test)]
mod events;
#[cfg(test)]
mod held;
#[cfg(test)]
mod profiles;
#[cfg(test)]
mod runs;
#[cfg(test)]
mod schedules;
#[cfg(test)]
mod sessions;
#[cfg(test)]
mod spaces;
#[cfg(test)]
mod trees;
#[cfg(test)]
mod values;

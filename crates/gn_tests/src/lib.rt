//! Tests of whole runs over trees in memory.
#![tactic(auto)]

#[cfg(test)]
mod builds;
#[cfg(test)]
mod commands;
#[cfg(test)]
mod failures;
#[cfg(test)]
mod files;
#[cfg(test)]
mod imports;
#[cfg(test)]
mod nesting;
#[cfg(test)]
mod puts;
#[cfg(test)]
mod rounds;
#[cfg(test)]
mod runs;
#[cfg(test)]
mod sizes;
#[cfg(test)]
mod sources;
#[cfg(test)]
mod whole_builds;
#[cfg(test)]
mod whole_puts;

//! Tests of the calls of the language below the top call: names, values, scopes, dotfiles, evaluations of whole files.
#![tactic(auto)]

#[cfg(test)]
mod dotfiles;
#[cfg(test)]
mod names;
#[cfg(test)]
mod scopes;
#[cfg(test)]
mod standing;
#[cfg(test)]
mod units;
#[cfg(test)]
mod values;

//! Tests of the calls on values, of build arguments and of the definition of items, which stand on nothing of the evaluator.
#![tactic(auto)]

#[cfg(test)]
mod answers;
#[cfg(test)]
mod arguments;
#[cfg(test)]
mod conversions;
#[cfg(test)]
mod define;
#[cfg(test)]
mod labels;
#[cfg(test)]
mod limits;
#[cfg(test)]
mod paths;
#[cfg(test)]
mod rows;
#[cfg(test)]
mod standing;
#[cfg(test)]
mod texts;

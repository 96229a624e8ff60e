//! Tables that are run and compared.

#![tactic(auto)]

#[cfg(test)]
mod labels;
#[cfg(test)]
mod plans_made;

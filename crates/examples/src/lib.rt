// Examples of the library's calls at the edges of what is allowed, as tests.
#![tactic(auto)]

#[cfg(test)]
mod closure_tests;
#[cfg(test)]
mod dialogue_tests;
#[cfg(test)]
mod layer_tests;
#[cfg(test)]
mod likeness_tests;
#[cfg(test)]
mod telling;
#[cfg(test)]
mod tests;
pub mod visits;

// Examples of what the store and its rules do, run as tests.
#![tactic(auto)]

#[cfg(test)]
mod card;
#[cfg(test)]
mod flush;
#[cfg(test)]
mod format;
#[cfg(test)]
mod idle;
#[cfg(test)]
mod plan;

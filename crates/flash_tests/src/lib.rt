// Examples of what the chips and layers do, run as tests.
#![tactic(auto)]

#[cfg(test)]
mod image;
#[cfg(test)]
mod layered;
#[cfg(test)]
mod limits;
#[cfg(test)]
mod plain;

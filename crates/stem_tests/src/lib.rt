// What `stem` prints for an input, as a whole and piece by piece, and how it fails.
#![tactic(auto)]

#[cfg(test)]
mod failures;
#[cfg(test)]
mod jobs;
#[cfg(test)]
mod logs;
#[cfg(test)]
mod outputs;
#[cfg(test)]
mod pieces;

// Wave memories at the sizes where something changes.
#![tactic(auto)]

pub mod bank;
#[cfg(test)]
mod boards;
#[cfg(test)]
mod cases;
#[cfg(test)]
mod comparisons;
#[cfg(test)]
mod parts;
#[cfg(test)]
mod searches;

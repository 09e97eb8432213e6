// Register logs at the values and the bits where something changes.
#![tactic(auto)]

#[cfg(test)]
mod alignments;
#[cfg(test)]
mod bits;
#[cfg(test)]
mod copies;
#[cfg(test)]
mod cuts;
#[cfg(test)]
mod endings;
#[cfg(test)]
mod headers;
#[cfg(test)]
mod lengths;
#[cfg(test)]
mod lists;
#[cfg(test)]
mod padding;
#[cfg(test)]
mod records;
#[cfg(test)]
mod steps;

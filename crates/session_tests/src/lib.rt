// Mixes beside their stems, by scripts of calls, by drawn calls and by logs.
#![tactic(auto)]

#[cfg(test)]
mod divisions;
#[cfg(test)]
mod groups;
#[cfg(test)]
mod orders;
#[cfg(test)]
mod random;
#[cfg(test)]
mod rig;
#[cfg(test)]
mod stops;
#[cfg(test)]
mod trios;

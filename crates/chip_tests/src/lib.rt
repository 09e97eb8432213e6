// Chips over memories, by scripts of calls.
#![tactic(auto)]

#[cfg(test)]
mod inspection;
#[cfg(test)]
mod positions;
#[cfg(test)]
mod refusals;
#[cfg(test)]
mod resets;
#[cfg(test)]
mod rig;
#[cfg(test)]
mod sounding;
#[cfg(test)]
mod switching;
#[cfg(test)]
mod windows;

// Players on chips, by logs and by steps.
#![tactic(auto)]

#[cfg(test)]
mod bits;
#[cfg(test)]
mod hands;
#[cfg(test)]
mod log_faults;
#[cfg(test)]
mod memory_faults;
#[cfg(test)]
mod records;
#[cfg(test)]
mod rig;
#[cfg(test)]
mod steps;
#[cfg(test)]
mod stops;

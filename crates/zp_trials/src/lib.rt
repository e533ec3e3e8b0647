//! Trials of the buddy allocator and of zones beside the plain allocator, which runs the definitions: the same requests of both, with every
//! result compared. It has tests alone.
#![tactic(auto)]

#[cfg(test)]
mod batches;
#[cfg(test)]
mod pair;
#[cfg(test)]
mod random;
#[cfg(test)]
mod runs;
#[cfg(test)]
mod scattered;
#[cfg(test)]
mod worked;
#[cfg(test)]
mod zones;

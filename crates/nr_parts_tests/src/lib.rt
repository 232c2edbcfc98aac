//! Tests that call the public functions of the packed machine's parts.
#![tactic(auto)]

#[cfg(test)]
mod buffers;
#[cfg(test)]
mod descriptors;
#[cfg(test)]
mod locks;
#[cfg(test)]
mod queues;
#[cfg(test)]
mod timers;

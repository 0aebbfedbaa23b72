// Texts and inputs with their places, and texts that are read and written again. They stand in a crate of their own, since a
// crate with tests is proved twice.
#![tactic(auto)]

#[cfg(test)]
mod answers_of;
#[cfg(test)]
mod both_ways;
#[cfg(test)]
mod damaged;

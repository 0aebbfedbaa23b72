// Examples of surveys, each with the nearest that is refused. They stand in a crate of their own, since a crate with tests
// is proved twice.
#![tactic(auto)]

#[cfg(test)]
mod lent;
#[cfg(test)]
mod surveyed;

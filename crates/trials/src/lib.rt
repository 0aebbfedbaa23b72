// Examples of what the libraries' calls accept, each with the nearest that is refused. They stand in a crate of their own,
// since a crate with tests is proved twice.
#![tactic(auto)]

#[cfg(test)]
mod settled;

// What a round remembers.
use tiles::CutList;

// A round is open until a settling is accepted, and then settled for good.
#[derive(Clone, Copy, PartialEq, Eq, Debug)]
pub enum State {
    Open,
    Settled,
}

// How the sheet is cut, whether the round is settled, and which tiles are surveyed.
#[derive(Drop)]
pub struct Round {
    pub(crate) cuts: CutList,
    pub(crate) state: State,
    pub(crate) surveyed: [bool; 1024],
}

// The records of the two tables.

// What is kept of a mouth, a cell on its tile's border: its mark and, once the round is settled, its sill.
#[derive(Clone, Copy)]
pub struct MouthRecord<M> {
    pub mark: M,
    pub sill: Option<M>,
}

// What is kept of a pass: the numbers of the two mouths that it joins, and its level.
#[derive(Clone, Copy)]
pub struct PassRecord<M> {
    pub from: usize,
    pub to: usize,
    pub level: M,
}

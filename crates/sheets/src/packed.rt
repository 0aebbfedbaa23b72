// A sheet over lent bytes.
ghost use Rattle.std.specs.Prelude.{◌≡◌, ℕ, ◌+◌, ◌*◌, ◌/◌, ◌%◌, ◌<◌, ◌≤◌, true, false, [], ◌∷◌, length, IfOk, MatchBool, slice_set};
ghost use Rattle.marks.specs.Refusals.{told, answered};
ghost use Rattle.sheets.specs.Grids.{Side, is_dead};
ghost use Rattle.sheets.specs.Layouts.{code_at, code_cell, packed, make_told};

use crate::sheet::{Sheet, WritableSheet};
use crate::sides::Sides;
use marks::{CodedMark, Refusal};
use std::marker::PhantomData;

// A sheet whose codes lie row by row in bytes, two to a cell, the high byte first. A cell whose code is no mark's is dead.
#[derive(Drop)]
pub struct Packed<'a, M> {
    // No `sides: Sides`, as in a raster.
    rows: usize,
    cols: usize,
    bytes: &'a mut [u8],
    kind: PhantomData<M>,
    ghost rows_side: { Side rows },
    ghost cols_side: { Side cols },
    ghost long: { length bytes.now ≡ 2 * (rows * cols) },
}

impl<'a, M: CodedMark> Packed<'a, M> {
    // The sheet of so many rows and columns over bytes that hold its codes; any mark names its kind. Any numbers may be asked for,
    // so they are no `Sides`.
    pub fn new(
        rows: usize,
        cols: usize,
        _kind: &M,
        bytes: &'a mut [u8],
    ) -> Result<Packed<'a, M>, Refusal>
        ensures told { answered (λ _. tt {0}) (told result) ≡ make_told rows cols (length bytes.old) (2 * (rows * cols)) (tt {0}) }
        ensures made { IfOk result (λ s. (s.rows ≡ rows) × (s.cols ≡ cols) × (s.bytes.now ≡ bytes.old) × (s.bytes.ghost_name ≡ bytes.entry.ghost_name)) }
    {
        let sides = Sides::fitting(rows, cols, bytes.len(), 2)?;
        Ok(Packed::over(sides, bytes))
    }

    // The same where the length is known to fit. Through a `Result` the check forgets whose bytes a sheet holds.
    pub(crate) fn over(sides: Sides, bytes: &'a mut [u8]) -> Packed<'a, M>
        requires { length bytes.old ≡ 2 * (sides.rows * sides.cols) }
        ensures rows { result.rows ≡ sides.rows }
        ensures cols { result.cols ≡ sides.cols }
        ensures bytes { result.bytes.now ≡ bytes.old }
        ensures loans { result.bytes.ghost_name ≡ bytes.entry.ghost_name }
    {
        let Sides { rows, cols } = sides;
        Packed {
            rows,
            cols,
            bytes,
            kind: PhantomData,
        }
    }

    // The mark of the cell at a place, in cells from the first; none, if the cell is dead.
    fn mark_at(&self, place: usize) -> Option<M>
        requires { place < self.now.rows * self.now.cols }
        ensures { result ≡ M.CodedMark.decoded (code_at self.now.bytes.now place) }
    {
        let high = self.bytes[2 * place];
        let low = self.bytes[2 * place + 1];
        M::from_code(u16::from(high) * 256 + u16::from(low))
    }

    // Whether none of so many cells from a place on is dead.
    fn readable(&self, from: usize, len: usize) -> bool
        requires { from + len ≤ self.now.rows * self.now.cols }
        ensures { MatchBool result ((k : ℕ) → k < len → is_dead (code_cell M.CodedMark.decoded self.now.bytes.now (from + k)) ≡ false) ((k : ℕ) × (k < len) × (is_dead (code_cell M.CodedMark.decoded self.now.bytes.now (from + k)) ≡ true)) }
    {
        (from..from + len).all(|place| self.mark_at(place).is_some())
    }

    // Puts a mark into the cell at a place.
    fn put(&mut self, place: usize, mark: M)
        requires { place < self.old.rows * self.old.cols }
        ensures rows { self.new.rows ≡ self.old.rows }
        ensures cols { self.new.cols ≡ self.old.cols }
        ensures loans { self.new.bytes.ghost_name ≡ self.old.bytes.ghost_name }
        ensures leaves { self.new.bytes.now ≡ slice_set (slice_set self.old.bytes.now (2 * place) (M.CodedMark.coded mark / 256)) (2 * place + 1) (M.CodedMark.coded mark % 256) }
    {
        let code = mark.code();
        self.bytes[2 * place] = (code / 256) as u8;
        self.bytes[2 * place + 1] = (code % 256) as u8;
    }
}

impl<'a, M: CodedMark> Sheet for Packed<'a, M> {
    type Mark = M;

    ghost meaning = { λ s. packed M.CodedMark.decoded s.rows s.cols s.bytes.now };

    ghost sided = { λ s. record { rows = s.rows_side; cols = s.cols_side } };

    fn sides(&self) -> Sides {
        Sides {
            rows: self.rows,
            cols: self.cols,
        }
    }

    // The whole run is looked at before any of it is handed out.
    fn read(&self, row: usize, col: usize, out: &mut [M]) -> Result<(), Refusal> {
        let len = out.len();
        let from = self.sides().start_of_run(row, col, len)?;
        if !self.readable(from, len) {
            return Err(Refusal::DeadCell);
        }
        for (k, slot) in out.iter_mut().enumerate() {
            if let Some(mark) = self.mark_at(from + k) {
                *slot = mark;
            }
        }
        Ok(())
    }
}

impl<'a, M: CodedMark> WritableSheet for Packed<'a, M> {
    ghost loans = { λ s. s.bytes.ghost_name ∷ [] };

    fn write(&mut self, row: usize, col: usize, marks: &[M]) -> Result<(), Refusal> {
        let from = self.sides().start_of_run(row, col, marks.len())?;
        for (k, mark) in marks.iter().enumerate() {
            self.put(from + k, *mark);
        }
        Ok(())
    }
}

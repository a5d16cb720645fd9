// The text of a board that is fit to be printed (02, R-6).
ghost use Rattle.std.specs.Prelude.{◌≡◌, ℕ, ◌+◌, ◌*◌, ◌≤◌, ◌<◌, length, get_or};
ghost use Rattle.lists.specs.Tab.{tab};
ghost use Rattle.text.specs.Inner.{Puts};
ghost use Rattle.sample.specs.Sample.{row_at, column_at};
ghost use Rattle.lists.specs.Turn.{in_turn};
ghost use Rattle.map.specs.Map.{line_width, mark_at, row_line, map_text};
ghost use Rattle.map.specs.Inner.{Printable};

use crate::LINE_WIDTH;
use board::Board;
use sample::Axis;

// A board and its planes.
#[derive(Clone, Copy)]
pub(crate) struct Page<'a> {
    pub(crate) board: Board,
    pub(crate) planes: &'a [f32],
    ghost printable: { Printable board planes.now },
}

impl Page<'_> {
    // The mark of a place of the picture, or beside it.
    #[tactic(auto, unfolding(crate::specs::Map::mark_at), using(crate::proofs::Marks::value_unit))]
    fn mark_at(&self, i: usize, j: usize) -> u8
        ensures { result ≡ mark_at self.now.board self.now.planes.now i j }
    {
        let Board { height, width, .. } = self.board;
        if height <= i || width <= j {
            return b'?';
        }
        crate::mark_of(crate::green_level(self.planes[height * width + (i * width + j)]))
    }

    // The picture columns of the samples of a board row: they are the same for each.
    fn columns(&self) -> [usize; LINE_WIDTH]
        ensures { (y : ℕ) → y < self.now.board.c → get_or result y 0 ≡ column_at self.now.board y 1 0 }
    {
        let mut columns = [0; LINE_WIDTH];
        for y in 0..self.board.c {
            columns[y] = Axis::columns(self.board, y, 1).sampled_at(0);
        }
        columns
    }

    // The marks of a board row whose cells lie in picture row i and these columns.
    #[tactic(auto, using(lists::proofs::Tab::length_tab_from))]
    fn put_marks(&self, i: usize, columns: &[usize], out: &mut [u8], at: usize) -> usize
        requires { at + length columns.now ≤ length out.old }
        ensures { Puts (tab (length columns.now) (λ y. mark_at self.now.board self.now.planes.now i (get_or columns.now y 0)))
            at out.old result out.new }
    {
        for (y, column) in columns.iter().enumerate() {
            out[at + y] = self.mark_at(i, *column);
        }
        at + columns.len()
    }

    // The marks of board row x. Where there are no columns, its place is not worked out.
    #[tactic(auto, using(text::proofs::Writing::puts_none))]
    fn put_cells(&self, columns: &[usize], x: usize, out: &mut [u8], at: usize) -> usize
        requires { (x < self.now.board.r) × (at + length columns.now ≤ length out.old) }
        ensures { Puts (tab (length columns.now)
            (λ y. mark_at self.now.board self.now.planes.now (row_at self.now.board x 1 0) (get_or columns.now y 0)))
            at out.old result out.new }
    {
        if columns.is_empty() {
            return at;
        }
        let i = Axis::rows(self.board, x, 1).sampled_at(0);
        self.put_marks(i, columns, out, at)
    }

    // The line of board row x.
    #[tactic(auto, using(lists::proofs::Tab::length_tab_from))]
    fn put_row(&self, columns: &[usize], x: usize, out: &mut [u8], at: usize) -> usize
        requires room { (x < self.now.board.r) × (at + (line_width + 1) ≤ length out.old) }
        requires columns_known { (length columns.now ≡ self.now.board.c)
            × ((y : ℕ) → y < self.now.board.c → get_or columns.now y 0 ≡ column_at self.now.board y 1 0) }
        ensures { Puts (row_line self.now.board self.now.planes.now x) at out.old result out.new }
    {
        let mut next = self.put_cells(columns, x, out, at);
        next = text::put_spaces(out, next, LINE_WIDTH - columns.len());
        text::put_feed(out, next)
    }

    // The lines of all board rows.
    #[tactic(auto, using(crate::proofs::Rows::rows_start, crate::proofs::Rows::row_more))]
    fn put_rows(&self, out: &mut [u8], at: usize) -> usize
        requires { at + self.now.board.r * (line_width + 1) ≤ length out.old }
        ensures { Puts (in_turn (tab self.now.board.r (row_line self.now.board self.now.planes.now))) at out.old result out.new }
    {
        let columns = self.columns();
        let mut next = at;
        for x in 0..self.board.r {
            next = self.put_row(&columns[..self.board.c], x, out, next);
        }
        next
    }

    // The whole text, and how many bytes it is.
    #[tactic(auto, using(crate::proofs::Rows::text_length_lem))]
    pub(crate) fn put_map(&self, out: &mut [u8]) -> usize
        requires { length (map_text self.now.board self.now.planes.now) ≤ length out.old }
        ensures { Puts (map_text self.now.board self.now.planes.now) 0 out.old result out.new }
    {
        let mut next = text::put_bytes(out, 0, b"rows columns\n");
        next = text::put_numbers(out, next, &[self.board.r as u64, self.board.c as u64]);
        self.put_rows(out, next)
    }
}

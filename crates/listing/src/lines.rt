// The lines of a list (RULES 7.4 to 7.6), one after the other.
ghost use Rattle.std.specs.Prelude.{◌≡◌, ◌∷◌, [], ◌+◌, ◌≤◌, ◌<◌, pos, length, get_or, drop};
ghost use Rattle.text.specs.Letters as letters;
ghost use Rattle.emath.specs.Refusals.{number_of};
ghost use Rattle.emath.specs.Steps.{tick, Edge};
ghost use Rattle.region.specs.Steps.{WholeRect};
ghost use Rattle.records.specs.Headings.{heading_in};
ghost use Rattle.records.specs.Sheets.{steps_left};
ghost use Rattle.sheet.specs.Ticks.{ticks, in_ticks};
ghost use Rattle.sheet.specs.Slices.{edges};
ghost use Rattle.listing.specs.Implementation.ListWriter.{put_line, places_of, put_widgets, put_entries, put_memory, Whole, WholeMemory};
ghost use Rattle.listing.specs.Implementation.Pens.{Writes};

use emath::{Rect, Refusal};
use grid::Memory;
use records::MAX_RECORDS;
use records::headings::read_heading;
use records::records::next_record;
use sheet::cells::tick;
use text::lines::write_line;

// What is written, and where the next line begins.
#[derive(Drop)]
pub struct Pen<'a> {
    pub out: &'a mut [u8],
    pub at: usize,
}

// 0 beyond the slice's end.
fn place(cells: &[i32], i: usize) -> i32
    ensures { result ≡ get_or cells.now i (pos 0) }
{
    cells.get(i).copied().unwrap_or(0)
}

impl Pen<'_> {
    // Nothing is written where the line has no room, or a number no text. Inlined, each caller's count of numbers is known: faster.
    #[inline(always)]
    fn put_line(&mut self, letter: u8, numbers: &[i32])
        ensures { Writes (put_line letter numbers.now) self.old self.new }
    {
        if write_line(self.out, self.at, letter, numbers) {
            self.at += 2 + 8 * numbers.len();
        }
    }

    // X: the refusal's number, and the record's.
    pub fn put_refusal(&mut self, refusal: Refusal, record: usize)
        requires { «record» ≤ 600 }
        ensures line { Writes (put_line letters.X (pos (number_of refusal) ∷ pos «record» ∷ [])) self.old self.new }
        ensures number { number_of refusal < 256 }
    {
        let numbers = [refusal.number() as i32, record as i32];
        self.put_line(b'X', &numbers);
    }

    // The line of W number k, which is record `number`.
    fn put_widget(&mut self, number: usize, cells: &[i32], k: usize)
        requires { (number ≤ 512) × (k ≤ 512) }
        ensures { Writes (put_line letters.W (pos number ∷ places_of cells.now k)) self.old self.new }
    {
        let i = 8 * k;
        let numbers = [
            number as i32,
            place(cells, i),
            place(cells, i + 1),
            place(cells, i + 2),
            place(cells, i + 3),
            place(cells, i + 4),
            place(cells, i + 5),
            place(cells, i + 6),
            place(cells, i + 7),
        ];
        self.put_line(b'W', &numbers);
    }

    // A line for each W among at most `most` records from `from` on, the first of them record `first`.
    fn put_widgets_from(
        &mut self,
        text: &[u8],
        cells: &[i32],
        from: usize,
        first: usize,
        most: usize,
    )
        requires { first + most ≤ 513 }
        ensures { Writes (put_widgets most first 0 (drop from text.now) cells.now) self.old self.new }
    {
        let mut next = from;
        let mut k: usize = 0;
        for n in first..first + most {
            let at = next;
            if text.len() <= at {
                return;
            }
            next = next_record(text, at);
            if text[at] == b'W' {
                self.put_widget(n, cells, k);
                k += 1;
            }
        }
    }

    // The same of all records after the heading.
    pub fn put_widgets(&mut self, text: &[u8], cells: &[i32])
        ensures { Writes (put_widgets (steps_left text.now) ((heading_in text.now).records + 1) 0 (drop (heading_in text.now).next text.now) cells.now) self.old self.new }
    {
        let h = read_heading(text);
        let records = h.records;
        self.put_widgets_from(text, cells, h.next, records + 1, MAX_RECORDS - records);
    }

    // P: the plate's edges.
    pub fn put_plate(&mut self, plate: Rect)
        requires { WholeRect tick plate }
        ensures { Writes (put_line letters.P (edges (in_ticks tick plate))) self.old self.new }
    {
        let numbers = [
            tick(plate.left),
            tick(plate.top),
            tick(plate.right),
            tick(plate.bottom),
        ];
        self.put_line(b'P', &numbers);
    }

    // C or D: an index, and its width or height.
    fn put_entry(&mut self, letter: u8, index: usize, x: f32)
        requires { (index ≤ 128) × Edge tick x }
        ensures { Writes (put_line letter (pos index ∷ ticks tick x ∷ [])) self.old self.new }
    {
        let numbers = [index as i32, tick(x)];
        self.put_line(letter, &numbers);
    }

    fn put_entries(&mut self, letter: u8, entries: &[f32])
        requires { (length entries.now ≤ 128) × Whole entries.now }
        ensures { Writes (put_entries letter 0 entries.now) self.old self.new }
    {
        for (i, &x) in entries.iter().enumerate() {
            self.put_entry(letter, i, x);
        }
    }

    // C for each column, then D for each row.
    #[tactic(auto, using(crate::proofs::Pens::after), unfolding(crate::specs::Implementation::ListWriter::put_memory))]
    pub fn put_memory(&mut self, memory: Memory)
        requires { WholeMemory memory }
        ensures { Writes (put_memory memory) self.old self.new }
    {
        self.put_entries(b'C', &memory.col_widths[..memory.cols]);
        self.put_entries(b'D', &memory.row_heights[..memory.rows]);
    }
}

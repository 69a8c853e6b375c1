// The sheets that a quiet chart is made of.
ghost use Rattle.std.specs.Prelude.{◌≡◌, ℕ, ◌*◌, ◌/◌, ◌%◌, ◌<◌, ◌≤◌, false, ◌&&◌, ◌||◌, List, [], map, length, IfOk, vec_len, slice_index, slice_index_or};
ghost use Rattle.std.specs.List.{range_with_len};
ghost use Rattle.closure.specs.Closure.{reaches, marks};
ghost use Rattle.words.specs.Bits.{bit, word_of};
ghost use Rattle.layers.specs.Sheet.{sheet_chart, silent_in, move_or_stay, reach_in, product};
ghost use Rattle.layers.specs.Made.{IsSheet};

use super::Sheet;
use crate::SILENT;
use charts::chart::Chart;
use closure::{Marks, reached_from};
use std::alloc::{AllocError, Global};
use words::{complement, intersection, union};

impl Sheet {
    // The sheet of a chart's moves, with a silent move from each state to itself. Each word of the chart is read once.
    pub(crate) fn of_moves<C: Chart>(heap: Global, chart: &C) -> Result<Sheet, AllocError>
        ensures made { IfOk result (IsSheet (C.Chart.meaning chart.now).count (move_or_stay (C.Chart.meaning chart.now))) }
    {
        Sheet::told(heap, chart.count(), |p, q| word_or_stay(chart, p, q))
    }

    // The sheet with every label from p to q where p reaches q by zero or more silent moves of this one.
    pub(crate) fn silent_reach(&self, heap: Global) -> Result<Sheet, AllocError>
        ensures made { IfOk result (IsSheet self.now.count (reach_in self.now.count self.now.words.items)) }
    {
        let marks = self.marks_of_reach(heap)?;
        let rows = marks.as_slice();
        Sheet::told(heap, self.count, |p, q| word_marked(rows, p, q))
    }

    // The sheet of the labels by which p moves in this sheet to some state, and this in the second to q.
    pub(crate) fn followed_by(&self, heap: Global, second: &Sheet) -> Result<Sheet, AllocError>
        requires as_many { second.now.count ≡ self.now.count }
        ensures made { IfOk result (IsSheet self.now.count (product self.now.count self.now.words.items second.now.words.items)) }
    {
        Sheet::told(heap, self.count, |p, q| self.labels_by_way(second, p, q))
    }

    // The sheet of so many states whose word from p to q is as told.
    fn told<F: Fn(usize, usize) -> u32>(
        heap: Global,
        count: usize,
        word: F,
    ) -> Result<Sheet, AllocError>
        requires few { count ≤ 128 }
        requires callable { (p q : ℕ) → p < count → q < count → F.pre word p q }
        ensures told { IfOk result (λ s. (s.count ≡ count) × ((i : ℕ) → i < count * count → F.post word (i / count) (i % count) (slice_index s.words.items i))) }
    {
        let words = words_told(heap, count, word)?;
        Ok(Sheet { count, words })
    }

    // For each state, marks for what it reaches by zero or more silent moves.
    fn marks_of_reach(&self, heap: Global) -> Result<Vec<Marks>, AllocError>
        ensures full { IfOk result (λ v. vec_len v ≡ self.now.count) }
        ensures made { IfOk result (λ v. v.items ≡ map (λ p. marks (reaches self.now.count (silent_in self.now.count self.now.words.items) p)) (range_with_len 0 self.now.count)) }
    {
        (0..self.count)
            .map(
                |p| -> Marks
                    ensures value { result ≡ marks (reaches self.entry.now.count (silent_in self.entry.now.count self.entry.now.words.items) p) }
                { reached_from(self, self.count, p) },
            )
            .collect(heap)
    }

    // The labels by which p moves in this sheet to some state, and this in the second to q.
    fn labels_by_way(&self, second: &Sheet, p: usize, q: usize) -> u32
        requires as_many { second.now.count ≡ self.now.count }
        requires p_below { p < self.now.count }
        requires q_below { q < self.now.count }
        ensures value { result ≡ word_of (λ a. product self.now.count self.now.words.items second.now.words.items p a q) }
    {
        (0..self.count).fold(
            0,
            |labels, r| -> u32
                requires as_many { second.now.count ≡ self.now.count }
                requires p_below { p < self.now.count }
                requires r_below { r < self.now.count }
                requires q_below { q < self.now.count }
                ensures joined { result ≡ word_of (λ a. bit labels a || bit (word_of (λ b. bit ((sheet_chart self.entry.now.count self.entry.now.words.items).word p r) b && bit ((sheet_chart second.entry.now.count second.entry.now.words.items).word r q) b)) a) }
            { union(labels, self.labels_through(second, p, r, q)) },
        )
    }

    // The labels by which p moves in this sheet to r, and r in the second to q. Both words are read at their places, by the one count: with a
    // test of the bounds at each, a quiet chart takes nearly twice the instructions.
    fn labels_through(&self, second: &Sheet, p: usize, r: usize, q: usize) -> u32
        requires as_many { second.now.count ≡ self.now.count }
        requires p_below { p < self.now.count }
        requires r_below { r < self.now.count }
        requires q_below { q < self.now.count }
        ensures value { result ≡ word_of (λ a. bit ((sheet_chart self.now.count self.now.words.items).word p r) a && bit ((sheet_chart second.now.count second.now.words.items).word r q) a) }
    {
        let n = self.count;
        intersection(self.words[p * n + r], second.words[r * n + q])
    }
}

// The words from p to q of so many states, each as it is told.
fn words_told<F: Fn(usize, usize) -> u32>(
    heap: Global,
    count: usize,
    word: F,
) -> Result<Vec<u32>, AllocError>
    requires few { count ≤ 128 }
    requires callable { (p q : ℕ) → p < count → q < count → F.pre word p q }
    ensures full { IfOk result (λ v. vec_len v ≡ count * count) }
    ensures told { IfOk result (λ v. (i : ℕ) → i < count * count → F.post word (i / count) (i % count) (slice_index v.items i)) }
{
    (0..count * count)
        .map(|i| word(i / count, i % count))
        .collect(heap)
}

// The word from p to q, with the silent label where p is q.
fn word_or_stay<C: Chart>(chart: &C, p: usize, q: usize) -> u32
    ensures value { result ≡ word_of (λ a. move_or_stay (C.Chart.meaning chart.now) p a q) }
{
    let word = chart.word(p, q);
    if p == q { union(word, SILENT) } else { word }
}

// Every label where q is marked in the row of p, else none.
#[tactic(auto, using(crate::proofs::Sheets::word_all, words::proofs::Bits::packed_none))]
fn word_marked(rows: &[Marks], p: usize, q: usize) -> u32
    requires row { p < length rows.now }
    requires column { q < 128 }
    ensures value { result ≡ word_of (λ _. slice_index_or (slice_index_or rows.now p []) q false) }
{
    if rows[p][q] { complement(0) } else { 0 }
}

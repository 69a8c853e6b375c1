// Sheets of words: the moves among n states as n × n words, the word from p to q at p × n + q.
ghost use Rattle.std.specs.Prelude.{◌≡◌, ◌*◌, ◌≤◌, length, vec_len};
ghost use Rattle.layers.specs.Sheet.{sheet_chart, silent_in, value_at};

use charts::chart::Chart;
use closure::Steps;
use words::contains;

mod making;

// A sheet that is lent: a value for each pair of so many states. A longer sheet has a tail, which means nothing.
#[derive(Drop)]
pub struct LentSheet<'a, T> {
    pub count: usize,
    pub values: &'a [T],
    ghost few: { count ≤ 128 },
    ghost suffices: { count * count ≤ length values.now },
}

impl<T: Copy> LentSheet<'_, T> {
    // The value of the pair, where both are states.
    pub fn at(&self, p: usize, q: usize) -> Option<T>
        ensures value { result ≡ value_at self.now.count self.now.values.now p q }
    {
        if p >= self.count || q >= self.count {
            return None;
        }
        let place = p * self.count + q;
        Some(self.values[place])
    }
}

// The chart whose words are in the sheet.
impl Chart for LentSheet<'_, u32> {
    ghost meaning = { λ s. sheet_chart s.count s.values.now };

    #[tactic(auto, using(crate::proofs::Sheets::sheet_chart_count))]
    fn count(&self) -> usize {
        self.count
    }

    #[tactic(auto, using(crate::proofs::Sheets::sheet_chart_at))]
    fn word(&self, p: usize, q: usize) -> u32 {
        self.at(p, q).unwrap_or(0)
    }
}

// A sheet that is kept.
#[derive(Drop)]
pub(crate) struct Sheet {
    count: usize,
    words: Vec<u32>,
    ghost few: { count ≤ 128 },
    ghost full: { vec_len words ≡ count * count },
}

impl Sheet {
    fn lent(&self) -> LentSheet<'_, u32>
        ensures count { result.count ≡ self.now.count }
        ensures words { result.values.now ≡ self.now.words.items }
    {
        LentSheet {
            count: self.count,
            values: self.words.as_slice(),
        }
    }
}

impl Chart for Sheet {
    ghost meaning = { λ s. sheet_chart s.count s.words.items };

    fn count(&self) -> usize {
        self.lent().count()
    }

    fn word(&self, p: usize, q: usize) -> u32 {
        self.lent().word(p, q)
    }
}

// The silent moves of a sheet.
impl Steps for Sheet {
    ghost step = { λ s. silent_in s.count s.words.items };

    #[tactic(auto, using(crate::proofs::Sheets::silent_told))]
    fn has_step(&self, p: usize, q: usize) -> bool {
        contains(self.word(p, q), 0)
    }
}

// The interface of a chart: two questions, whose answers are its meaning.
ghost use Rattle.std.specs.Prelude.{◌≡◌};
ghost use Rattle.charts.specs.Meaning.{Meaning};

pub trait Chart {
    // The chart that the value stands for, with the laws of a chart.
    ghost meaning: { Self → Meaning };

    // How many states there are.
    fn count(&self) -> usize
        ensures answers_the_count { result ≡ (meaning self.now).count };

    // The labels of the moves from p to q, as bits; 0 where p or q is no state.
    fn word(&self, p: usize, q: usize) -> u32
        ensures answers_the_word { result ≡ (meaning self.now).word p q };
}

// A chart that is lent is a chart, with the same meaning.
impl<C: Chart> Chart for &C {
    ghost meaning = { λ c. C.Chart.meaning c.now };

    fn count(&self) -> usize {
        C::count(*self)
    }

    fn word(&self, p: usize, q: usize) -> u32 {
        C::word(*self, p, q)
    }
}

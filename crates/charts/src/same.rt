// Records with a sameness, and the search for the first of a slice.
ghost use Rattle.std.specs.Prelude.{◌≡◌, Bool, true, position};
ghost use Rattle.charts.specs.Search.{Equivalence, First};

// A type has one `==`, and of records that carry more than what is compared it may compare that too: so sameness is a trait of its own.
pub trait Same {
    // Two records are the same.
    ghost same: { Self → Self → Bool };

    // Sameness is reflexive, symmetric and transitive.
    ghost lawful: { Equivalence same };

    fn is_same(&self, other: &Self) -> bool
        ensures answers_sameness { result ≡ same self.now other.now };
}

// The place of the first record that is the same as the wanted one, if one is.
pub fn first_same<T: Same>(records: &[T], wanted: &T) -> Option<usize>
    ensures value { result ≡ position (λ x. T.same x wanted.now) records.now }
    ensures first { First (λ x. T.same x wanted.now) records.now result }
    ensures by_sameness_alone { (y : T) → T.same y wanted.now ≡ true → result ≡ position (λ x. T.same x y) records.now }
{
    records.iter().position(|record| record.is_same(wanted))
}

ghost use Rattle.std.specs.Prelude.{◌≡◌, ℕ};
ghost use Rattle.rules.specs.Choice.{greatest as greatest_by};

// A record that tells a count.
pub trait Counted {
    // the count that a record tells
    ghost tally: { Self → ℕ };

    // The count of this record.
    fn count(&self) -> usize
        ensures { result ≡ tally self.now };
}

// A number is its own count.
impl Counted for usize {
    ghost tally = { λ n. n };

    fn count(&self) -> usize {
        *self
    }
}

// The place of the record with the greatest count, the lowest place on a tie. None if there is no record.
pub fn greatest<T: Counted>(records: &[T]) -> Option<usize>
    ensures { result ≡ greatest_by T.tally records.now }
{
    // by hand: of equal counts `max_by_key` gives the last, and the first is wanted
    let (first, rest) = records.split_first()?;
    let mut best = 0;
    let mut most = first.count();
    for (place, record) in rest.iter().enumerate() {
        let count = record.count();
        if count > most {
            best = place + 1;
            most = count;
        }
    }
    Some(best)
}

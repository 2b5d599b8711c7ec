//! What a record of a file stands for.
ghost use Rattle.std.specs.Prelude.{◌≡◌, slice_index};
ghost use Rattle.files.specs.Contents.{Entry, four_of};

/// The values of a record's fields, absent ones too, in the order of their bits. No record of a file has more than four; behind the last one's value stands 0.
pub type Values = [u64; 4];

/// A part of a domain that has a record of its own in the file: an action, a move, a goal.
pub trait Record: Sized {
    // what its record holds, and what is made of such a record
    ghost written: { Self → Entry };

    ghost made: { Entry → Self };

    fn from_values(values: &[u64], marked: bool) -> Self
        ensures { result ≡ made (record { values = values.now; marked = marked }) };

    /// The value of a field, and 0 past the last one.
    fn value(&self, field: usize) -> u64
        ensures { result ≡ slice_index (written self.now).values field };

    fn values(&self) -> Values
        ensures { result ≡ four_of (written self.now).values }
    {
        [self.value(0), self.value(1), self.value(2), self.value(3)]
    }

    fn is_marked(&self) -> bool
        ensures { result ≡ (written self.now).marked };
}

/// The value of a field, and 0 where there is none.
pub fn value_at(values: &[u64], field: usize) -> u64
    ensures { result ≡ slice_index values.now field }
{
    values.get(field).copied().unwrap_or(0)
}

/// The first four of the values, and 0 for each that is missing.
pub fn first_four(values: &[u64]) -> Values
    ensures { result ≡ four_of values.now }
{
    let mut four = [0; 4];
    let count = values.len().min(4);
    four[..count].copy_from_slice(&values[..count]);
    four
}

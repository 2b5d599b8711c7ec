//! Rows of numbers, or of anything that can be printed.
ghost use Rattle.reports.specs.Words.{row_text};

use std::fmt;

/// The items of a row with a space between each two; where there is none, the word for that.
#[derive(Clone, Copy)]
pub struct Row<'a, T>(pub &'a [T], pub &'a str);

impl<T: fmt::Display> fmt::Display for Row<'_, T> {
    ghost output = { λ row. row_text T.output row.1.now row.0.now };

    fn fmt<W: fmt::Write>(&self, f: &mut fmt::Formatter<W>) -> fmt::Result {
        let Row(items, none) = *self;
        let Some((first, rest)) = items.split_first() else {
            return f.write_str(none);
        };
        write!(f, "{first}")?;
        for item in rest {
            write!(f, " {item}")?;
        }
        Ok(())
    }
}

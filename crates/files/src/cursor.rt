//! Reading one record, from a place in a file.
ghost use Rattle.std.specs.Prelude.{◌≡◌, ◌+◌, ◌≤◌, length};
ghost use Rattle.files.specs.Formats.{bytes_of, fields_of};
ghost use Rattle.files.specs.Reading.{size_of, part_with};
ghost use Rattle.files.specs.Cursors.{field_at, fields_at, record_at, in_four};

use crate::field::Field;
use crate::layout::Layout;
use crate::numbers::{has_bits, read_number};
use crate::record::{Record, Values};
use domain::fault::{Position, ReadFault};

// A place in a file that is read, of a domain of so many fluents or places.
#[derive(Clone, Copy)]
pub(crate) struct Cursor<'a> {
    pub(crate) bytes: &'a [u8],
    pub(crate) size: u8,
    pub(crate) at: Position,
}

impl Cursor<'_> {
    // The value of a field that is present, and the byte after it.
    fn field(self, field: Field) -> Result<(u64, usize), ReadFault>
        requires { self.at.byte + bytes_of field ≤ length self.bytes.now }
        ensures { result ≡ field_at self.entry field }
    {
        let from = self.at.byte;
        let next = from + field.bytes();
        let value = read_number(&self.bytes[from..next]);
        if !field.may_hold(self.size, value) {
            return Err(ReadFault::Field(self.at));
        }
        Ok((value, next))
    }

    // The values of the fields, the bits of the bit map that are left, and the byte after the fields.
    fn fields(self, layout: Layout, map: u8) -> Result<(Values, u8, usize), ReadFault>
        requires { self.at.byte + size_of map (fields_of layout.kind layout.part) ≤ length self.bytes.now }
        ensures { result ≡ in_four (fields_at self.entry layout map) }
    {
        let mut values = [0; 4];
        let mut rest = map;
        let mut byte = self.at.byte;
        // the fields are taken one by one: of what is written through `iter_mut().zip(..)` nothing is known
        let mut fields = layout.fields().iter();
        for value in values.iter_mut() {
            let Some(field) = fields.next() else { break };
            if rest % 2 == 1 {
                let at = Position { byte, ..self.at };
                (*value, byte) = Cursor { at, ..self }.field(*field)?;
            } else {
                *value = field.absent();
            }
            rest /= 2;
        }
        Ok((values, rest, byte))
    }

    // What the record stands for, and the byte after it.
    pub(crate) fn record<R: Record>(self, layout: Layout) -> Result<(R, usize), ReadFault>
        ensures { result ≡ part_with R.made (record_at self.entry layout) }
    {
        let cut = ReadFault::Cut(Position {
            byte: self.bytes.len(),
            ..self.at
        });
        let Some(map) = self.bytes.get(self.at.byte) else {
            return Err(cut);
        };
        if !has_bits(u64::from(*map), layout.bit_count()) {
            return Err(ReadFault::Bits(self.at));
        }
        let at = Position {
            byte: self.at.byte + 1,
            ..self.at
        };
        if self.bytes.len() - at.byte < layout.fields_size(*map) {
            return Err(cut);
        }
        let (values, rest, next) = Cursor { at, ..self }.fields(layout, *map)?;
        let count = layout.fields().len();
        Ok((R::from_values(&values[..count], rest % 2 == 1), next))
    }
}

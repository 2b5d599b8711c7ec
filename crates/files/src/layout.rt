//! The layout of a record, by which it is read and written.
ghost use Rattle.std.specs.Prelude.{◌≡◌, ◌≤◌, length};
ghost use Rattle.files.specs.Contents.{bit_map, mark_bit, record_bytes};
ghost use Rattle.files.specs.Formats.{fields_of, is_markable, bit_count};
ghost use Rattle.files.specs.Reading.{size_of};
ghost use Rattle.files.specs.Writing.{Wrote};

use crate::field::Field;
use crate::kind::{Kind, Part};
use crate::record::Record;

// The kind of file that a record stands in, and what it describes.
#[derive(Clone, Copy)]
pub(crate) struct Layout {
    pub(crate) kind: Kind,
    pub(crate) part: Part,
}

impl Layout {
    // The fields, in the order of their bits.
    pub(crate) fn fields(self) -> &'static [Field]
        ensures { result.now ≡ fields_of self.kind self.part }
    {
        match (self.kind, self.part) {
            (Kind::Card, Part::Action) => &[Field::Set, Field::Set, Field::Set, Field::Cost],
            (Kind::Card, Part::Goal) => &[Field::Set],
            (Kind::Map, Part::Action) => &[Field::Place, Field::Place, Field::Cost],
            (Kind::Map, Part::Goal) => &[Field::Place],
        }
    }

    // Whether a record has a bit for a mark, above its fields' bits.
    fn is_markable(self) -> bool
        ensures { result ≡ is_markable self.part }
    {
        self.part == Part::Action
    }

    // How many bits of a record's bit map are defined.
    pub(crate) fn bit_count(self) -> u8
        ensures { result ≡ bit_count self.kind self.part }
    {
        self.fields().len() as u8 + u8::from(self.is_markable())
    }

    // How many bytes the fields take that the bit map tells of.
    pub(crate) fn fields_size(self, map: u8) -> usize
        ensures { result ≡ size_of map (fields_of self.kind self.part) }
    {
        let mut rest = map;
        let mut size = 0;
        for field in self.fields() {
            if rest % 2 == 1 {
                size += field.bytes();
            }
            rest /= 2;
        }
        size
    }

    // The bit above the fields' bits.
    fn mark_bit<R: Record>(self, item: &R) -> u8
        ensures { result ≡ mark_bit self.part (R.written item.now) }
    {
        u8::from(self.is_markable() && item.is_marked())
    }

    // The first byte of the item's record.
    fn bit_map<R: Record>(self, item: &R) -> u8
        ensures { result ≡ bit_map (fields_of self.kind self.part) (R.written item.now).values (mark_bit self.part (R.written item.now)) }
    {
        let values = item.values();
        let mut map = 0;
        let mut bit = 1;
        for (field, value) in self.fields().iter().zip(&values) {
            map += bit * u8::from(field.is_written(*value));
            bit *= 2;
        }
        map + bit * self.mark_bit(item)
    }

    // How many bytes the item's record takes.
    pub(crate) fn record_length<R: Record>(self, item: &R) -> usize
        ensures { result ≡ length (record_bytes self.kind self.part (R.written item.now)) }
    {
        1 + self.fields_size(self.bit_map(item))
    }

    // The item's record into the front of the place; the answer is how many bytes it takes.
    pub(crate) fn write_record<R: Record>(self, item: &R, place: &mut [u8]) -> usize
        requires { length (record_bytes self.kind self.part (R.written item.now)) ≤ length place.old }
        ensures { Wrote (record_bytes self.kind self.part (R.written item.now)) place.old place.new result }
    {
        place[0] = self.bit_map(item);
        let values = item.values();
        let mut count = 1;
        for (field, value) in self.fields().iter().zip(&values) {
            count += field.write(*value, &mut place[count..]);
        }
        count
    }
}

// Reading a call line: decimal numbers with single blanks between them, a byte at a time.
ghost use Rattle.std.specs.Prelude.{◌≤◌};

use crate::answer::{Answer, Refusal};
use crate::functions::answer_to;

// A function's number, nine arguments, and one more, which no function takes. Later fields are
// not kept: such a line is refused without them.
const FIELDS: usize = 11;

// What the bytes behind the last blank come to: no digit yet, a number, or a malformed line.
// One enum, since a `Result` of an `Option` takes more instructions for each byte.
#[derive(Clone, Copy, PartialEq, Eq)]
pub(crate) enum Field {
    Empty,
    Number(u32),
    Malformed,
}

// A line that has not ended: its first `count` fields, which have ended, and the last field.
// The memory is fixed, so that the count stands beside its array; `kept` ties them.
#[derive(Clone, Copy)]
pub(crate) struct Call {
    fields: [u32; FIELDS],
    count: usize,
    pub last: Field,
    ghost kept: { count ≤ 11 },
}

impl Call {
    // A line with no byte yet.
    pub(crate) fn new() -> Call {
        Call {
            fields: [0; FIELDS],
            count: 0,
            last: Field::Empty,
        }
    }

    // Whether the line has no byte.
    pub(crate) fn is_empty(&self) -> bool {
        self.count == 0 && self.last == Field::Empty
    }

    // What the last field comes to with one byte more, which is no line feed.
    // The caller holds the field, so that it stays in registers while bytes are read.
    pub(crate) fn read(&mut self, last: Field, byte: u8) -> Field {
        // Asked first: no byte behind it mends a malformed line.
        if last == Field::Malformed {
            return last;
        }
        match byte {
            b'0'..=b'9' => last.longer(u32::from(byte - b'0')),
            b' ' => self.end(last),
            _ => Field::Malformed,
        }
    }

    // What stands behind the last field, which ends at a blank.
    fn end(&mut self, last: Field) -> Field {
        match last {
            Field::Number(number) => {
                self.push(number);
                Field::Empty
            }
            _ => Field::Malformed,
        }
    }

    // The answer to the line, which ends here.
    pub(crate) fn answer(&mut self, last: Field) -> Answer {
        let Field::Number(number) = last else {
            return Err(Refusal::Malformed);
        };
        self.push(number);
        answer_to(&self.fields[..self.count])
    }

    // Goes on to the next line, which has no field yet.
    pub(crate) fn clear(&mut self) {
        self.count = 0;
    }

    // Keeps a field that has ended.
    fn push(&mut self, number: u32) {
        if self.count < FIELDS {
            self.fields[self.count] = number;
            self.count += 1;
        }
    }
}

impl Field {
    // The field with one digit more. No digit follows a leading zero, and a value fits 32 bits.
    fn longer(self, digit: u32) -> Field {
        match self {
            Field::Empty => Field::Number(digit),
            Field::Number(0) | Field::Malformed => Field::Malformed,
            Field::Number(number) => {
                let longer = u64::from(number) * 10 + u64::from(digit);
                u32::try_from(longer).map_or(Field::Malformed, Field::Number)
            }
        }
    }
}

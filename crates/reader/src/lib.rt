// The fields of a line's bytes; what six columns are a field is in the crate columns. The lines of a text are in specs/Text, and whether
// its columns are at fault is looked for in the crate text_check.
// Every field is read through a `LineReader`, which goes over a line field by field; `field_at` and `rest` are it for one step. Every public
// function answers any bytes. The definitions are in specs/Line.
#![tactic(auto)]

ghost use Rattle.std.specs.Prelude.{◌≡◌, ◌*◌, length, drop};
ghost use Rattle.reader.specs.Line.{field_there, fields_of, reader_at, next_of};

// A read-only look at one line of the lent text, or at a part of one: its bytes, and the number of the field that is next.
#[derive(Clone, Copy)]
pub struct LineReader<'a> {
    pub line: &'a [u8],
    pub at: usize,
}

// A field's number, and the reader moved on: to the field after it, and where it was if there is no field.
#[derive(Clone, Copy)]
pub struct Next<'a> {
    pub field: Option<u16>,
    pub reader: LineReader<'a>,
}

impl<'a> LineReader<'a> {
    // The reader of a line, at its first field.
    pub fn new(line: &'a [u8]) -> LineReader<'a>
        ensures { result ≡ reader_at line.entry 0 }
    {
        LineReader { line, at: 0 }
    }

    // The reader moved on to field k.
    pub fn moved(self, k: usize) -> LineReader<'a>
        ensures { result ≡ reader_at self.entry.line k }
    {
        LineReader {
            line: self.line,
            at: k,
        }
    }

    // The next field, beside the reader moved on.
    pub fn next(self) -> Next<'a>
        ensures { result ≡ next_of self.entry }
    {
        let field = columns::field_in(self.line, self.at);
        let at = if field.is_some() {
            self.at + 1
        } else {
            self.at
        };
        Next {
            field,
            reader: self.moved(at),
        }
    }

    // What is left of the line from the next field on, as a part.
    pub fn rest(self) -> &'a [u8]
        ensures { result.now ≡ drop (6 * self.entry.at) self.entry.line.now }
    {
        if self.at <= self.line.len() / columns::COLUMNS {
            let at = columns::COLUMNS * self.at;
            &self.line[at..]
        } else {
            &self.line[self.line.len()..]
        }
    }
}

// The k-th field of a part of a line, counted from 0; none also where the part has no k-th six columns.
pub fn field_at(part: &[u8], k: usize) -> Option<u16>
    ensures { result ≡ field_there part.now k }
{
    LineReader::new(part).moved(k).next().field
}

// What is left of a part after its first k fields.
pub fn rest(part: &[u8], k: usize) -> &[u8]
    ensures { result.now ≡ drop (6 * k) part.now }
{
    LineReader::new(part).moved(k).rest()
}

// How many fields a part begins with.
pub fn count(part: &[u8]) -> usize
    ensures { result ≡ length (fields_of part.now) }
{
    let mut reader = LineReader::new(part);
    loop {
        let next = reader.next();
        let Some(_) = next.field else {
            return reader.at;
        };
        reader = next.reader;
    }
}

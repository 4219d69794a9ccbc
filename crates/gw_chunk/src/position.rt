//! The decoder's position in a chunked text.
ghost use Rattle.std.specs.Prelude.{◌≡◌, ◌≤◌};
ghost use Rattle.gw_chunk.specs.Position.{after_byte, behind_field, behind_line, behind_size, in_closing, in_content, in_fields, in_line, left_of, next_line, skipped};

use crate::error::ChunkError;
use crate::lines::{FieldForm, LineForm, SIZE_LIMIT};

const LINE_LIMIT: u32 = 4_096;

const SECTION_LIMIT: u32 = 65_536;

const DATA_LIMIT: u64 = 1 << 62;

/// Where a text is read on. `sum` is the sum of the sizes so far.
#[derive(Clone, Copy)]
pub(crate) enum Position {
    /// In a chunk line of which `read` bytes were read, which say `size` so far.
    Line {
        form: LineForm,
        read: u32,
        size: u64,
        sum: u64,
    },
    /// In a chunk's data of which `left` bytes are left; behind them where there are none.
    Content {
        left: u64,
        sum: u64,
    },
    /// Behind the first of the two bytes after a chunk's data, which is CR where it is `good`.
    Closing {
        good: bool,
        sum: u64,
    },
    /// In a line of the trailer section, of which `read` bytes were read.
    Fields {
        form: FieldForm,
        read: u32,
    },
    /// Behind the text.
    Ended,
    /// Behind a fault.
    Refused(ChunkError),
}

impl Position {
    /// Before the first byte.
    pub(crate) fn first() -> Position
        ensures { result ≡ next_line 0 }
    {
        next_line(0)
    }

    /// How many bytes of a chunk's data are left.
    pub(crate) fn left(self) -> u64
        ensures { result ≡ left_of self }
    {
        match self {
            Position::Content { left, .. } => left,
            _ => 0,
        }
    }

    /// The position behind so many bytes of a chunk's data.
    pub(crate) fn skip(self, count: u64) -> Position
        requires { count ≤ left_of self }
        ensures { result ≡ skipped self count }
    {
        match self {
            Position::Content { left, sum } => Position::Content {
                left: left - count,
                sum,
            },
            other => other,
        }
    }

    /// The position behind one byte more.
    pub(crate) fn after(self, byte: u8) -> Position
        ensures { result ≡ after_byte self byte }
    {
        match self {
            Position::Line {
                form,
                read,
                size,
                sum,
            } => in_line(form, read, size, sum, byte),
            Position::Content { left, sum } => in_content(left, sum, byte),
            Position::Closing { good, sum } => in_closing(good, sum, byte),
            Position::Fields { form, read } => in_fields(form, read, byte),
            Position::Ended => Position::Ended,
            Position::Refused(error) => Position::Refused(error),
        }
    }
}

// Before a chunk line.
fn next_line(sum: u64) -> Position
    ensures { result ≡ next_line sum }
{
    Position::Line {
        form: LineForm::Empty,
        read: 0,
        size: 0,
        sum,
    }
}

fn in_line(form: LineForm, read: u32, size: u64, sum: u64, byte: u8) -> Position
    ensures { result ≡ in_line form read size sum byte }
{
    if byte == b'\n' {
        return behind_line(form, size, sum);
    }
    if read >= LINE_LIMIT - 1 {
        return Position::Refused(ChunkError::LineTooLong);
    }
    Position::Line {
        form: form.after(byte),
        read: read + 1,
        size: form.size_with(size, byte),
        sum,
    }
}

fn behind_line(form: LineForm, size: u64, sum: u64) -> Position
    ensures { result ≡ behind_line form size sum }
{
    match form {
        LineForm::Return => behind_size(size, sum),
        LineForm::Empty
        | LineForm::Digits
        | LineForm::Blanks
        | LineForm::Extension
        | LineForm::Broken => Position::Refused(ChunkError::BadLine),
    }
}

fn behind_size(size: u64, sum: u64) -> Position
    ensures { result ≡ behind_size size sum }
{
    if size >= SIZE_LIMIT {
        return Position::Refused(ChunkError::TooLarge);
    }
    if sum > DATA_LIMIT - size {
        return Position::Refused(ChunkError::TooLarge);
    }
    if size == 0 {
        return Position::Fields {
            form: FieldForm::Begin,
            read: 0,
        };
    }
    Position::Content {
        left: size,
        sum: sum + size,
    }
}

fn in_content(left: u64, sum: u64, byte: u8) -> Position
    ensures { result ≡ in_content left sum byte }
{
    if left == 0 {
        return Position::Closing {
            good: byte == b'\r',
            sum,
        };
    }
    Position::Content {
        left: left - 1,
        sum,
    }
}

fn in_closing(good: bool, sum: u64, byte: u8) -> Position
    ensures { result ≡ in_closing good sum byte }
{
    if good && byte == b'\n' {
        next_line(sum)
    } else {
        Position::Refused(ChunkError::DataEnd)
    }
}

fn in_fields(form: FieldForm, read: u32, byte: u8) -> Position
    ensures { result ≡ in_fields form read byte }
{
    if byte == b'\n' {
        return behind_field(form, read);
    }
    if read >= SECTION_LIMIT - 1 {
        return Position::Refused(ChunkError::Trailer);
    }
    Position::Fields {
        form: form.after(byte),
        read: read + 1,
    }
}

fn behind_field(form: FieldForm, read: u32) -> Position
    ensures { result ≡ behind_field form read }
{
    match form {
        FieldForm::Last => Position::Ended,
        FieldForm::Close if read < SECTION_LIMIT - 1 => Position::Fields {
            form: FieldForm::Begin,
            read: read + 1,
        },
        _ => Position::Refused(ChunkError::Trailer),
    }
}

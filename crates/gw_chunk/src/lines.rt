//! Chunk lines and trailer lines, a byte at a time (RFC 9112, sections 7.1 and 7.1.2).
ghost use Rattle.std.specs.Option.{SomeIff};
ghost use Rattle.std.specs.Prelude.{◌≡◌, ◌<◌};
ghost use Rattle.std.specs.Char.{digit_value};
ghost use Rattle.gw_chunk.specs.Bytes.{is_blank, is_hex, is_token_byte};
ghost use Rattle.gw_chunk.specs.Lines.{field_form, form_behind_size, line_form, line_size, with_digit};

/// The least size that no chunk may have; a size that is read is kept as the lesser of itself and this.
pub(crate) const SIZE_LIMIT: u64 = 1 << 48;

/// What the bytes of a chunk line are so far.
#[derive(Clone, Copy)]
pub(crate) enum LineForm {
    /// There are none.
    Empty,
    /// Digits of the size.
    Digits,
    /// The size, and spaces or tabs.
    Blanks,
    /// The size and what may follow it, and an extension.
    Extension,
    /// All of a good line but its LF.
    Return,
    /// They begin no good line.
    Broken,
}

impl LineForm {
    /// What they are with one byte more, which isn't LF.
    pub(crate) fn after(self, byte: u8) -> LineForm
        ensures { result ≡ line_form self byte }
    {
        match self {
            LineForm::Empty if is_hex(byte) => LineForm::Digits,
            LineForm::Digits if is_hex(byte) => LineForm::Digits,
            LineForm::Digits | LineForm::Blanks => behind_size(byte),
            LineForm::Extension if byte != b'\r' => LineForm::Extension,
            LineForm::Extension => LineForm::Return,
            LineForm::Empty | LineForm::Return | LineForm::Broken => LineForm::Broken,
        }
    }

    /// The size that they say with one byte more.
    pub(crate) fn size_with(self, size: u64, byte: u8) -> u64
        ensures { result ≡ line_size self size byte }
    {
        match self {
            LineForm::Empty | LineForm::Digits => with_digit(size, byte),
            LineForm::Blanks | LineForm::Extension | LineForm::Return | LineForm::Broken => size,
        }
    }
}

fn behind_size(byte: u8) -> LineForm
    ensures { result ≡ form_behind_size byte }
{
    match byte {
        b' ' | b'\t' => LineForm::Blanks,
        b';' => LineForm::Extension,
        b'\r' => LineForm::Return,
        _ => LineForm::Broken,
    }
}

fn hex_digit(byte: u8) -> Option<u32>
    ensures { SomeIff result (digit_value byte < 16) (digit_value byte) }
{
    char::from(byte).to_digit(16)
}

fn is_hex(byte: u8) -> bool
    ensures { result ≡ is_hex byte }
{
    byte.is_ascii_hexdigit()
}

fn with_digit(size: u64, byte: u8) -> u64
    ensures { result ≡ with_digit size byte }
{
    match hex_digit(byte) {
        Some(digit) => size
            .saturating_mul(16)
            .saturating_add(u64::from(digit))
            .min(SIZE_LIMIT),
        None => size,
    }
}

/// What the bytes of a trailer line are so far.
#[derive(Clone, Copy)]
pub(crate) enum FieldForm {
    /// There are none.
    Begin,
    /// Bytes of a name.
    Name,
    /// A name, the colon and bytes of a value.
    Value,
    /// All of a field line but its LF.
    Close,
    /// The CR of the empty line, which ends the section.
    Last,
    /// They begin no good line.
    Faulty,
}

impl FieldForm {
    /// What they are with one byte more, which isn't LF.
    pub(crate) fn after(self, byte: u8) -> FieldForm
        ensures { result ≡ field_form self byte }
    {
        match self {
            FieldForm::Begin | FieldForm::Name if is_token_byte(byte) => FieldForm::Name,
            FieldForm::Begin if byte == b'\r' => FieldForm::Last,
            FieldForm::Name if byte == b':' => FieldForm::Value,
            FieldForm::Value if byte == b'\r' => FieldForm::Close,
            FieldForm::Value if byte != 0 => FieldForm::Value,
            _ => FieldForm::Faulty,
        }
    }
}

// Whether the byte is one of a token (RFC 9110, section 5.6.2).
#[tactic(auto, unfolding(crate::specs::Bytes::is_token_byte))]
fn is_token_byte(byte: u8) -> bool
    ensures { result ≡ is_token_byte byte }
{
    byte.is_ascii_alphanumeric() || b"!#$%&'*+-.^_`|~".contains(&byte)
}

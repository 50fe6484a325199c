use std::alloc::{AllocError, Global};
use std::collections::BTreeMap;

/// Texts of a script, by their names.
pub type Texts = BTreeMap<String, String>;

/// What a line ends with.
#[derive(Clone, Copy)]
pub enum LineEnd {
    LineFeed,
    CarriageReturnLineFeed,
    Nothing,
}

/// A piece of an input or of an output, as a script writes it.
#[derive(Clone, Copy)]
pub enum Piece<'a> {
    /// A text as it stands.
    Text(&'a str, LineEnd),
    /// A text with parts that are filled in.
    Filled(&'a str, LineEnd),
    /// A range of numbers and a text, which is filled in for each of them and ends with a line feed.
    Numbered(&'a str),
    /// Bytes in hexadecimal, with blanks between.
    Bytes(&'a str),
}

impl LineEnd {
    fn bytes(self) -> &'static [u8] {
        match self {
            LineEnd::LineFeed => b"\n",
            LineEnd::CarriageReturnLineFeed => b"\r\n",
            LineEnd::Nothing => b"",
        }
    }
}

impl<'a> Piece<'a> {
    /// Appends the bytes that it stands for, and answers whether it was understood.
    pub fn append_to(
        self,
        alloc: Global,
        texts: &Texts,
        bytes: &mut Vec<u8>,
    ) -> Result<bool, AllocError> {
        match self {
            Piece::Text(text, end) => {
                bytes.extend_from_slice(text.as_bytes())?;
                bytes.extend_from_slice(end.bytes())?;
                Ok(true)
            }
            Piece::Filled(text, end) => {
                let is_understood = append_filled(texts, bytes, text, "#")?;
                bytes.extend_from_slice(end.bytes())?;
                Ok(is_understood)
            }
            Piece::Numbered(text) => append_numbered(alloc, texts, bytes, text),
            Piece::Bytes(text) => append_hex(bytes, text),
        }
    }
}

fn append_hex(bytes: &mut Vec<u8>, text: &str) -> Result<bool, AllocError> {
    for digits in text.split_ascii_whitespace() {
        match u8::from_str_radix(digits, 16) {
            Ok(byte) if digits.len() == 2 => bytes.push(byte)?,
            _ => return Ok(false),
        }
    }
    Ok(true)
}

/// Appends a line for each number of `FROM TO TEXT`.
fn append_numbered(
    alloc: Global,
    texts: &Texts,
    bytes: &mut Vec<u8>,
    text: &str,
) -> Result<bool, AllocError> {
    let Some((from, to, text)) = range_and_text(text) else {
        return Ok(false);
    };
    for number in from..=to {
        let number = format!(in alloc; "{number}")?;
        if !append_filled(texts, bytes, text, number.as_str())? {
            return Ok(false);
        }
        bytes.push(b'\n')?;
    }
    Ok(true)
}

fn range_and_text(text: &str) -> Option<(u32, u32, &str)> {
    let (from, text) = text.split_once(' ')?;
    let (to, text) = text.split_once(' ')?;
    let from = from.parse().ok()?;
    let to = to.parse().ok()?;
    if from > to {
        return None;
    }
    Some((from, to, text))
}

/// Appends a text. Each `#` in it is the number, `~COUNT PART~` a part so many times, and `~NAME~` the text of that name.
fn append_filled(
    texts: &Texts,
    bytes: &mut Vec<u8>,
    text: &str,
    number: &str,
) -> Result<bool, AllocError> {
    let mut is_plain = true;
    for part in text.split('~') {
        if is_plain {
            append_plain(bytes, part, number)?;
        } else if !append_part(texts, bytes, part)? {
            return Ok(false);
        }
        is_plain = !is_plain;
    }
    Ok(!is_plain)
}

/// Appends a text in which each `#` is the number.
fn append_plain(bytes: &mut Vec<u8>, text: &str, number: &str) -> Result<(), AllocError> {
    let mut is_first = true;
    for part in text.split('#') {
        if !is_first {
            bytes.extend_from_slice(number.as_bytes())?;
        }
        bytes.extend_from_slice(part.as_bytes())?;
        is_first = false;
    }
    Ok(())
}

/// Appends the text of a name, or the part of `COUNT PART` so many times.
fn append_part(texts: &Texts, bytes: &mut Vec<u8>, text: &str) -> Result<bool, AllocError> {
    let Some((count, part)) = count_and_part(texts, text) else {
        return Ok(false);
    };
    if let [byte] = part.as_bytes() {
        bytes.resize(bytes.len().saturating_add(count as usize), *byte)?;
        return Ok(true);
    }
    for _ in 0..count {
        bytes.extend_from_slice(part.as_bytes())?;
    }
    Ok(true)
}

fn count_and_part<'a>(texts: &'a Texts, text: &'a str) -> Option<(u32, &'a str)> {
    match text.split_once(' ') {
        Some((count, part)) => Some((count.parse().ok()?, part)),
        None => Some((1, texts.get(text)?.as_str())),
    }
}

// The places of a line, as a case names them.
use prof_lines::{
    LineFault, TextFault, end, fixed, label, number, optional, put_quoted, quoted, word,
};
use std::alloc::Global;
use std::str;

pub(crate) type Fault = TextFault<()>;

fn put(out: &mut String, bytes: &[u8]) -> Result<(), LineFault<()>> {
    out.push_str(str::from_utf8(bytes).unwrap_or("?"))?;
    out.push(' ')?;
    Ok(())
}

fn read_number<'a>(
    alloc: Global,
    range: &str,
    bytes: &'a [u8],
    out: &mut String,
) -> Result<&'a [u8], LineFault<()>> {
    let (least, most) = range.split_once(':').unwrap_or((range, ""));
    let (number, rest) = number(
        bytes,
        least.parse::<u64>().unwrap_or(0),
        most.parse::<u64>().unwrap_or(0),
    )?;
    let digits = format!(in alloc; "{number}")?;
    put(out, digits.as_bytes())?;
    Ok(rest)
}

fn read_place<'a>(
    alloc: Global,
    kind: &str,
    argument: &str,
    bytes: &'a [u8],
    out: &mut String,
) -> Result<&'a [u8], LineFault<()>> {
    match kind {
        "word" => {
            let (word, rest) = word(bytes)?;
            put(out, word)?;
            Ok(rest)
        }
        "label" => {
            let (label, rest) = label(bytes)?;
            put(out, label)?;
            Ok(rest)
        }
        "quoted" => {
            let (text, rest) = quoted(alloc, bytes)?;
            put(out, text.bytes())?;
            let mut written = Vec::new(alloc);
            put_quoted(&mut written, &text)?;
            put(out, written.as_slice())?;
            Ok(rest)
        }
        "number" => read_number(alloc, argument, bytes, out),
        _ => fixed(kind.as_bytes(), bytes),
    }
}

// Adds what the places read of a line.
pub(crate) fn read_places(
    alloc: Global,
    places: &str,
    bytes: &[u8],
    out: &mut String,
) -> Result<(), LineFault<()>> {
    out.push_str("| ")?;
    let mut rest = bytes;
    for place in places.split_ascii_whitespace() {
        let (kind, argument) = place.split_once(':').unwrap_or((place, ""));
        if kind == "optional" {
            let there = optional(argument.as_bytes(), rest)?;
            return put(
                out,
                if there {
                    b"there".as_slice()
                } else {
                    b"missing".as_slice()
                },
            );
        }
        rest = read_place(alloc, kind, argument, rest, out)?;
    }
    end(rest)
}

ghost use Rattle.std.specs.Prelude.{◌≡◌, ◌≤◌, ◌-◌, ◌∷◌, length, take, false, IfSome};
ghost use Rattle.solid_base.specs.Spelling.{after_sign, digit_count, after_digits, after_blanks};
ghost use Rattle.iges_fields.specs.Delimiters.{AreDelimiters};
ghost use Rattle.iges_fields.specs.Grammar.{delimiter, IsField};
ghost use Rattle.iges_fields.specs.Reading.{delimited, text_at, word_at, content_at, field_at};
ghost use Rattle.iges_fields.specs.Readers.{Gives, reading_of};

use crate::faults::FieldFault;
use crate::kinds::{Field, FieldKind};
use crate::scan;
use solid_base::{after_blanks, after_sign, before_blanks, digit_count, number_up_to};
use std::marker::Model;

/// A field, what stands after its delimiter, and whether that delimiter ends the record.
#[derive(Clone, Copy, Debug)]
pub struct Found<'a> {
    pub field: Field<'a>,
    pub rest: &'a [u8],
    pub ended: bool,
}

fn delimited<'a>(
    kind: FieldKind,
    text: &'a [u8],
    after: &'a [u8],
    comma: u8,
    semi: u8,
) -> Result<Found<'a>, FieldFault>
    ensures { Gives result (delimited comma semi kind text.now after.now) }
{
    let field = Field { kind, text };
    match after {
        [] => Err(FieldFault::NoEnd),
        [b, rest @ ..] if *b == comma => Ok(Found {
            field,
            rest,
            ended: false,
        }),
        [b, rest @ ..] if *b == semi => Ok(Found {
            field,
            rest,
            ended: true,
        }),
        _ => Err(FieldFault::BadToken),
    }
}

fn text_at<'a>(count: usize, bytes: &'a [u8], comma: u8, semi: u8) -> Result<Found<'a>, FieldFault>
    ensures { Gives result (text_at comma semi count bytes.now) }
{
    if bytes.len() < count {
        return Err(FieldFault::BadText);
    }
    let (text, after) = bytes.split_at(count);
    delimited(FieldKind::Text, text, after_blanks(after), comma, semi)
}

fn word_at<'a>(bytes: &'a [u8], comma: u8, semi: u8) -> Result<Found<'a>, FieldFault>
    ensures { Gives result (word_at comma semi bytes.now) }
{
    let (word, after) = bytes.split_at(scan::bytes_before(bytes, comma, semi));
    let text = before_blanks(word);
    match scan::kind_of(text) {
        Some(kind) => delimited(kind, text, after, comma, semi),
        None => Err(FieldFault::BadToken),
    }
}

fn content_at<'a>(bytes: &'a [u8], comma: u8, semi: u8) -> Result<Found<'a>, FieldFault>
    ensures { Gives result (content_at comma semi bytes.now) }
{
    let count = digit_count(bytes);
    let (digits, after) = bytes.split_at(count);
    if scan::is_counted(count, after) {
        let size = number_up_to(digits, u64::MAX) as usize;
        text_at(size, &after[1..], comma, semi)
    } else {
        word_at(bytes, comma, semi)
    }
}

/// The field up to `end`, a part of the bytes after its content, where a delimiter stands.
fn ended_at<'a>(
    kind: FieldKind,
    bytes: &'a [u8],
    end: &'a [u8],
    comma: u8,
    semi: u8,
) -> Option<Found<'a>>
    requires { length end.now ≤ length bytes.now }
    ensures kind { IfSome result (λ found. found.field.kind ≡ kind) }
    ensures text { IfSome result (λ found.
        found.field.text.now ≡ take (length bytes.now - length end.now) bytes.now) }
    ensures ended { IfSome result (λ found.
        end.now ≡ delimiter comma semi found.ended ∷ found.rest.now) }
{
    let text = &bytes[..bytes.len() - end.len()];
    let field = Field { kind, text };
    match end {
        [b, rest @ ..] if *b == comma => Some(Found {
            field,
            rest,
            ended: false,
        }),
        [b, rest @ ..] if *b == semi => Some(Found {
            field,
            rest,
            ended: true,
        }),
        _ => None,
    }
}

/// The number that stands here without an exponent and right before a delimiter, as most numbers
/// do. Its bytes are looked at once.
fn number_at<'a>(bytes: &'a [u8], comma: u8, semi: u8) -> Option<Found<'a>>
    ensures { IfSome result (λ found. IsField comma semi bytes.now (reading_of found)) }
{
    let number = after_sign(bytes);
    let whole = digit_count(number);
    let after = &number[whole..];
    match after {
        [b'.', rest @ ..] => real_at(bytes, whole, rest, comma, semi),
        _ if whole != 0 => ended_at(FieldKind::Whole, bytes, after, comma, semi),
        _ => None,
    }
}

/// The real number that stands here, with so many digits and a point before `rest`.
fn real_at<'a>(
    bytes: &'a [u8],
    whole: usize,
    rest: &'a [u8],
    comma: u8,
    semi: u8,
) -> Option<Found<'a>>
    requires whole { whole ≡ digit_count (after_sign bytes.now) }
    requires rest { after_digits (after_sign bytes.now) ≡ 46 ∷ rest.now }
    ensures { IfSome result (λ found. IsField comma semi bytes.now (reading_of found)) }
{
    let count = digit_count(rest);
    if whole == 0 && count == 0 {
        return None;
    }
    ended_at(FieldKind::Real, bytes, &rest[count..], comma, semi)
}

fn field_at<'a>(text: &'a [u8], comma: u8, semi: u8) -> Result<Found<'a>, FieldFault>
    requires { AreDelimiters comma semi }
    ensures { Gives result (field_at comma semi text.now) }
{
    let content = after_blanks(text);
    match number_at(content, comma, semi) {
        Some(found) => Ok(found),
        None => field_after(text, content, comma, semi),
    }
}

/// The field that a text begins with, the content of which begins here.
#[tactic(auto, unfolding(crate::specs::Reading::field_at))]
fn field_after<'a>(
    text: &'a [u8],
    content: &'a [u8],
    comma: u8,
    semi: u8,
) -> Result<Found<'a>, FieldFault>
    requires { content.now ≡ after_blanks text.now }
    ensures { Gives result (field_at comma semi text.now) }
{
    content_at(content, comma, semi)
}

/// A reader of the fields of a record's text, which it borrows.
///
/// `comma` stands between fields and `semi` after the last; what follows `semi` is not read.
/// Blanks, which are spaces and tabs, may stand before and after a field's content. A content that
/// begins with digits and `H` is a text of that many bytes, whatever they are; any other runs to
/// the next delimiter, and is empty, a whole number or a real number. A real number has a point or
/// an exponent, which is `E`, `D`, `e` or `d`, an optional sign and digits.
#[derive(Debug, Drop)]
pub struct Fields<'a> {
    rest: &'a [u8],
    comma: u8,
    semi: u8,
    ended: bool,
}

impl<'a> Model for Fields<'a> {
    ghost use Rattle.iges_fields.specs.Delimiters.{AreDelimiters};
    ghost use Rattle.iges_fields.specs.Readers.{Reader};

    ghost Value = { Reader };

    ghost view = { λ f. record {
      rest = f.rest.now;
      comma = f.comma;
      semi = f.semi;
      ended = f.ended;
    } };

    ghost invariant = { λ f. AreDelimiters f.comma f.semi };
}

impl<'a> Fields<'a> {
    ghost use Rattle.iges_fields.specs.Delimiters.{AreDelimiters};
    ghost use Rattle.iges_fields.specs.Readers.{Reader, IsNext};

    /// A reader at the beginning of a text, with the delimiter between fields and the one after the
    /// last.
    pub fn new(text: &'a [u8], comma: u8, semi: u8) -> Fields<'a>
        requires { AreDelimiters comma semi }
        ensures { result ≡ record { rest = text.now; comma = comma; semi = semi; ended = false } }
    {
        Fields {
            rest: text,
            comma,
            semi,
            ended: false,
        }
    }

    /// The next field, or None where the last field ended at `semi`.
    ///
    /// BadText comes where a text's count runs past the end, BadToken where what stands before the
    /// delimiter is no field, and NoEnd where a field is the text's end with no delimiter after it.
    /// The reader is then as it was.
    pub fn next(&mut self) -> Result<Option<Field<'a>>, FieldFault>
        ensures { IsNext self.old self.new result }
    {
        if self.ended {
            return Ok(None);
        }
        let found = field_at(self.rest, self.comma, self.semi)?;
        self.rest = found.rest;
        self.ended = found.ended;
        Ok(Some(found.field))
    }
}

#[cfg(test)]
mod tests {
    use super::*;
    use std::alloc::{AllocError, Global};

    /// Each field as a letter and its content in brackets, then `.` at the end, or a fault's
    /// number.
    fn shown(alloc: Global, text: &[u8]) -> Result<Vec<u8>, AllocError> {
        let mut out = Vec::new(alloc);
        let mut fields = Fields::new(text, b',', b';');
        for _ in 0..10 {
            match fields.next() {
                Ok(Some(field)) => {
                    out.push(match field.kind {
                        FieldKind::Empty => b'e',
                        FieldKind::Whole => b'w',
                        FieldKind::Real => b'r',
                        FieldKind::Text => b't',
                    })?;
                    out.push(b'[')?;
                    out.extend_from_slice(field.text)?;
                    out.push(b']')?;
                }
                Ok(None) => {
                    out.push(b'.')?;
                    return Ok(out);
                }
                Err(FieldFault::BadText) => {
                    out.push(b'2')?;
                    return Ok(out);
                }
                Err(FieldFault::BadToken) => {
                    out.push(b'3')?;
                    return Ok(out);
                }
                Err(FieldFault::NoEnd) => {
                    out.push(b'4')?;
                    return Ok(out);
                }
            }
        }
        Ok(out)
    }

    #[test]
    fn reads_the_fields_of_a_record(rt: HostRuntime) -> Result<(), AllocError> {
        let alloc = rt.alloc();
        let cases: [(&[u8], &[u8]); 22] = [
            (b"158,1.0,0.,,+3 ;x", b"w[158]r[1.0]r[0.]e[]w[+3]."),
            (b" \t 1 \t,\t;", b"w[1]e[]."),
            (
                b"1e5,1E5,1d-5,1D+05,-.5,5.;",
                b"r[1e5]r[1E5]r[1d-5]r[1D+05]r[-.5]r[5.].",
            ),
            (b"3H,;,,0H;", b"t[,;,]t[]."),
            (b"02H  ;", b"t[  ]."),
            (b"1H\n , 2Hab\t;", b"t[\n]t[ab]."),
            (b"3Hab", b"2"),
            (b"3Habc", b"4"),
            (b"3Habc ", b"4"),
            (b"2Habc,", b"3"),
            (b"18446744073709551617H,,", b"2"),
            (b"4Hab;,;1", b"t[ab;,]."),
            (b"", b"4"),
            (b" ", b"4"),
            (b",", b"e[]4"),
            (b"1.2.3", b"3"),
            (b"1 2,", b"3"),
            (b"+,", b"3"),
            (b"1E,", b"3"),
            (b"H,", b"3"),
            (b"-1Ha,", b"3"),
            (b"1,2", b"w[1]4"),
        ];
        for (text, want) in cases {
            let got = shown(alloc, text)?;
            assert_eq!(rt; got.as_slice(), want);
        }
        Ok(())
    }
}

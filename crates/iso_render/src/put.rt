ghost use Rattle.std.specs.Prelude.{◌≡◌, ◌++◌, OnOk};
ghost use Rattle.std.specs.Fmt.{decimal, signed_decimal};
ghost use Rattle.iso_render.specs.Texts.{doubled, value_text, later_values, row_text};

use iso_types::{Memory, Row, Value};
use itoa::Buffer;

// Appends the bytes.
pub fn put(out: &mut Vec<u8>, text: &[u8]) -> Result<(), Memory>
    ensures { OnOk result (out.new.items ≡ out.old.items ++ text.now) }
{
    out.extend_from_slice(text)?;
    Ok(())
}

// Appends the number in decimal.
pub fn put_number(out: &mut Vec<u8>, n: u64) -> Result<(), Memory>
    ensures { OnOk result (out.new.items ≡ out.old.items ++ decimal n) }
{
    let mut digits = Buffer::new();
    put(out, digits.format(n).as_bytes())
}

// Appends the signed number in decimal.
pub fn put_signed(out: &mut Vec<u8>, n: i64) -> Result<(), Memory>
    ensures { OnOk result (out.new.items ≡ out.old.items ++ signed_decimal n) }
{
    let mut digits = Buffer::new();
    put(out, digits.format(n).as_bytes())
}

// Appends the bytes with each quote doubled.
fn put_doubled(out: &mut Vec<u8>, text: &[u8]) -> Result<(), Memory>
    ensures { OnOk result (out.new.items ≡ out.old.items ++ doubled text.now) }
{
    for b in text {
        if *b == b'\'' {
            put(out, b"''")?;
        } else {
            out.push(*b)?;
        }
    }
    Ok(())
}

// Appends a value.
pub fn put_value(out: &mut Vec<u8>, value: &Value) -> Result<(), Memory>
    ensures { OnOk result (out.new.items ≡ out.old.items ++ value_text value.now) }
{
    match value {
        Value::Null => put(out, b"NULL"),
        Value::Int(n) => put_signed(out, *n),
        Value::Text(text) => {
            put(out, b"'")?;
            put_doubled(out, text.as_bytes())?;
            put(out, b"'")
        }
    }
}

// Appends the values of a row.
pub fn put_row(out: &mut Vec<u8>, row: &Row) -> Result<(), Memory>
    ensures { OnOk result (out.new.items ≡ out.old.items ++ row_text row.now) }
{
    let Some((first, others)) = row.as_slice().split_first() else {
        return Ok(());
    };
    put_value(out, first)?;
    for value in others {
        put(out, b", ")?;
        put_value(out, value)?;
    }
    Ok(())
}

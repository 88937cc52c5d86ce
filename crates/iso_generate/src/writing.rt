ghost use Rattle.std.specs.Prelude.{◌≡◌, ◌++◌, ◌<◌, ◌+◌, OnOk, codes};
ghost use Rattle.std.specs.Fmt.{decimal};
ghost use Rattle.iso_generate.specs.Generated.{body_text, conn_text, mark_text, numbers, opening, sessions, words_before};

use crate::body::{Body, Deed};
use iso_types::Memory;
use std::alloc::Global;

// Appends the bytes.
pub fn put(out: &mut Vec<u8>, text: &[u8]) -> Result<(), Memory>
    ensures { OnOk result (out.new.items ≡ out.old.items ++ text.now) }
{
    out.extend_from_slice(text)?;
    Ok(())
}

// Appends the number in decimal.
fn put_number(alloc: Global, out: &mut Vec<u8>, n: u64) -> Result<(), Memory>
    ensures { OnOk result (out.new.items ≡ out.old.items ++ decimal n) }
{
    let text = format!(in alloc; "{n}")?;
    put(out, text.as_bytes())
}

// The words before a statement's first number.
#[tactic(auto, unfolding(crate::specs::Generated::words_before))]
fn words_before(deed: Deed) -> &'static [u8]
    ensures { result.now ≡ words_before deed }
{
    match deed {
        Deed::Show(_) => b"SELECT BAL FROM ACCT WHERE ID = ",
        Deed::Count(_) => b"SELECT COUNT(*) FROM ACCT WHERE ID BETWEEN ",
        Deed::ShowAll => b"SELECT ID, BAL FROM ACCT WITH UR",
        Deed::Add(_, _) => b"UPDATE ACCT SET BAL = BAL + ",
        Deed::Insert(_, _) => b"INSERT INTO ACCT VALUES (",
        Deed::Delete(_) => b"DELETE FROM ACCT WHERE ID = ",
        Deed::Commit => b"COMMIT",
        Deed::Rollback => b"ROLLBACK",
    }
}

// Appends a statement's numbers, with the words between and behind them.
fn put_numbers(alloc: Global, out: &mut Vec<u8>, deed: Deed) -> Result<(), Memory>
    ensures { OnOk result (out.new.items ≡ out.old.items ++ numbers deed) }
{
    match deed {
        Deed::Show(x) | Deed::Delete(x) => put_number(alloc, out, u64::from(x)),
        Deed::Count(x) => {
            put_number(alloc, out, u64::from(x))?;
            put(out, b" AND ")?;
            put_number(alloc, out, u64::from(x) + 30)
        }
        Deed::Add(z, x) => {
            put_number(alloc, out, u64::from(z))?;
            put(out, b" WHERE ID = ")?;
            put_number(alloc, out, u64::from(x))
        }
        Deed::Insert(w, z) => {
            put_number(alloc, out, u64::from(w))?;
            put(out, b", ")?;
            put_number(alloc, out, u64::from(z))?;
            put(out, b", 'g')")
        }
        Deed::ShowAll | Deed::Commit | Deed::Rollback => Ok(()),
    }
}

// Appends `& ` for one number in four.
fn put_mark(out: &mut Vec<u8>, mark: u32) -> Result<(), Memory>
    ensures { OnOk result (out.new.items ≡ out.old.items ++ mark_text mark) }
{
    if mark == 0 { put(out, b"& ") } else { Ok(()) }
}

// The connection's letter.
fn letter(conn: u32) -> &'static [u8]
    ensures { result.now ≡ conn_text conn }
{
    if conn == 0 {
        b"A"
    } else if conn == 1 {
        b"B"
    } else if conn == 2 {
        b"C"
    } else {
        b"D"
    }
}

/// Appends a body line.
pub fn put_body(alloc: Global, out: &mut Vec<u8>, body: Body) -> Result<(), Memory>
    ensures { OnOk result (out.new.items ≡ out.old.items ++ body_text body) }
{
    put_mark(out, body.mark)?;
    put(out, letter(body.conn))?;
    put(out, b": ")?;
    put(out, words_before(body.deed))?;
    put_numbers(alloc, out, body.deed)?;
    put(out, b"\n")
}

/// Appends an account of the head.
pub fn put_account(alloc: Global, out: &mut Vec<u8>, id: u32) -> Result<(), Memory>
    ensures { OnOk result (out.new.items ≡ out.old.items ++ (codes "ROW ACCT (" ++ decimal id ++ codes ", 1000, 'a')\n")) }
{
    put(out, b"ROW ACCT (")?;
    put_number(alloc, out, u64::from(id))?;
    put(out, b", 1000, 'a')\n")
}

/// The table and its index.
#[tactic(auto, unfolding(crate::specs::Generated::opening))]
pub fn opening() -> &'static [u8]
    ensures { result.now ≡ opening }
{
    b"DB2ISO 1\nTABLE ACCT (ID INTEGER NOT NULL, BAL BIGINT NOT NULL, TAG VARCHAR(8))\nUNIQUE INDEX PK ON ACCT (ID)\n"
}

/// The connections.
#[tactic(auto, unfolding(crate::specs::Generated::sessions))]
pub fn sessions() -> &'static [u8]
    ensures { result.now ≡ sessions }
{
    b"CONNECT A CS\nCONNECT B CS\nCONNECT C RS\nCONNECT D RR\nBEGIN\n"
}

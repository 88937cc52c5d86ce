ghost use Rattle.std.specs.Prelude.{◌≡◌, ◌++◌, OnOk, codes};
ghost use Rattle.std.specs.Fmt.{decimal};
ghost use Rattle.iso_render.specs.Texts.{conn_name};
ghost use Rattle.iso_render.specs.Transcript.{cause_word};

use crate::names::put_conn;
use crate::put::{put, put_number};
use iso_history::Cause;
use iso_types::{Conn, Head, Memory};

// What a stop names.
pub fn cause_of(cause: Cause) -> &'static [u8]
    ensures { result.now ≡ cause_word cause }
{
    match cause {
        Cause::Memory => b"MEMORY",
        Cause::History => b"HISTORY",
        Cause::Table => b"TABLE",
    }
}

// Appends how a connection's line begins: the script line and its name.
pub fn put_front(out: &mut Vec<u8>, head: &Head, line: u32, conn: Conn) -> Result<(), Memory>
    ensures { OnOk result (out.new.items ≡ out.old.items ++ (decimal line ++ codes " " ++ conn_name head.now conn ++ codes " ")) }
{
    put_number(out, u64::from(line))?;
    put(out, b" ")?;
    put_conn(out, head, conn)?;
    put(out, b" ")
}

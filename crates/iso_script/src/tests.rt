ghost use Rattle.std.specs.Prelude.{◌≡◌, ◌<◌, ◌^◌, length, IfOk, OnOk};
ghost use Rattle.iso_script.specs.Kept.{IsKept};

use super::*;
use crate::fault::cause_of;
use crate::progress::Progress;
use iso_grammar::tokens_of;
use iso_types::Items;
use std::alloc::Global;

// The least script, and each form of head line in mixed case, with tabs, comments, empty lines and CR LF.
const LEAST: &[u8] = b"DB2ISO 1\nBEGIN\nEND\n";

const LOOSE: &[u8] =
    b"-- a script\r\n\r\ndb2iso\t01\r\nconfig cur_commit Disabled\r\n \t \r\nTable t(id Integer not null,b bigint, v varchar(32))\r\nROW T (1, -9223372036854775808, 'it''s 32 bytes, with doubled ''''x''')\r\nrow t(-7,NULL,null)\r\n\tConnect a Ur\r\nTABLE LATER (N INTEGER)\r\nTABLE ABCDEFGHIJKLMNOPQRSTUVWXYZ123456 (A INTEGER, B INTEGER, C INTEGER, D INTEGER, E INTEGER, F INTEGER, G INTEGER, H INTEGER)\r\nbegin\r\n-- a body line\r\na : Insert into t values (7, 0, 'x''y') ;\r\nA:SELECT ID FROM T WHERE NOT B=7 AND v IS NULL with ur\r\nA:select count ( * ) from later where n between -1 and 1 with ur;\r\nA: COMMIT WORK\r\nend\r\n\r\n--";

// Two connections, an index, the level RR, a line behind `&`, EXPIRE and SNAPSHOT.
const SEVERAL: &[u8] =
    b"DB2ISO 1\nCONFIG LOCKLIST 4\nCONNECT A RR\nCONNECT B\nTABLE T (N INTEGER NOT NULL)\nUNIQUE INDEX I ON T (N)\nBEGIN\n& A: UPDATE T SET N = 1 WITH RR\nB: ROLLBACK\nEXPIRE A\nSNAPSHOT\nEND\n";

// Head lines, and what is wrong with the last of them. The first line and its table are written before them.
const HEADS: [(&[u8], LineCause); 35] = [
    (b"TABLE", LineCause::Syntax(6)),
    (b"TABLE T (ID INTEGER", LineCause::Syntax(20)),
    (b"TABLE T (ID INTEGER NOT)", LineCause::Syntax(24)),
    (b"TABLE X (N VARCHAR)", LineCause::Syntax(19)),
    (b" -- no comment", LineCause::Syntax(2)),
    (b"CONFIG WINDOW 4X", LineCause::Syntax(16)),
    (b"CONFIG CUR_COMMIT AVAILABLE", LineCause::Syntax(19)),
    (b"ROW T ('unfinished)", LineCause::Syntax(8)),
    (b"ROW T ('a\rb')", LineCause::Syntax(8)),
    (b"EXPIRE A", LineCause::Syntax(1)),
    (b"CONFIG LOCKLIST 3", LineCause::Limit(17)),
    (b"CONFIG LOCKLIST 4097", LineCause::Limit(17)),
    (b"CONFIG MAXLOCKS 0", LineCause::Limit(17)),
    (b"CONFIG MAXLOCKS 101", LineCause::Limit(17)),
    (b"CONFIG LOGMAX 1", LineCause::Limit(15)),
    (b"CONFIG LOGMAX 1000001", LineCause::Limit(15)),
    (b"CONFIG WINDOW -1", LineCause::Limit(15)),
    (b"CONFIG WINDOW 99999999999999999999", LineCause::Limit(15)),
    (b"TABLE T (N INTEGER)", LineCause::Duplicate(7)),
    (b"TABLE X (N INTEGER, n BIGINT)", LineCause::Duplicate(21)),
    (b"TABLE X (N VARCHAR(33))", LineCause::Limit(20)),
    (b"TABLE X (N VARCHAR(0))", LineCause::Limit(20)),
    (
        b"TABLE ABCDEFGHIJKLMNOPQRSTUVWXYZ1234567 (N INTEGER)",
        LineCause::Limit(7),
    ),
    (
        b"TABLE X (A INTEGER, B INTEGER, C INTEGER, D INTEGER, E INTEGER, F INTEGER, G INTEGER, H INTEGER, I INTEGER)",
        LineCause::Limit(1),
    ),
    (b"ROW NOSUCH (1)", LineCause::Unknown(5)),
    (
        b"ROW ABCDEFGHIJKLMNOPQRSTUVWXYZ1234567 (1)",
        LineCause::Unknown(5),
    ),
    (b"ROW T ('x')", LineCause::TypeFault(8)),
    (b"ROW T (1)", LineCause::TypeFault(9)),
    (b"ROW T (1, 'x', 2)", LineCause::TypeFault(16)),
    (b"ROW T (NULL, 'x')", LineCause::TypeFault(8)),
    (b"ROW T (2147483648, 'x')", LineCause::TypeFault(8)),
    (
        b"ROW T (1, 'it''s 33 bytes,, with doubled ''''x''')",
        LineCause::TypeFault(11),
    ),
    (b"INDEX I ON T (V)", LineCause::TypeFault(15)),
    (b"INDEX I ON NOSUCH (V)", LineCause::Unknown(12)),
    (b"INDEX I ON T (X)", LineCause::Unknown(15)),
];

// Whole scripts, with their first bad line and its cause.
const REFUSED: [(&[u8], u32, LineCause); 21] = [
    (
        b"DB2ISO 1\nCONNECT A\nBEGIN\nA: SELECT * FROM T\nEND\n",
        4,
        LineCause::Unknown(18),
    ),
    (
        b"DB2ISO 1\nTABLE T (N VARCHAR(32))\nCONNECT A\nBEGIN\nA: DELETE FROM T WHERE N = 'ABCDEFGHIJKLMNOPQRSTUVWXYZ1234567'\n",
        5,
        LineCause::Limit(28),
    ),
    (
        b"DB2ISO 1\nTABLE T (ID INTEGER, V INTEGER)\nCONNECT A\nBEGIN\nA: SELECT ID FROM T WHERE V > NULL WITH UR\n",
        5,
        LineCause::Syntax(31),
    ),
    (
        b"DB2ISO 1\nTABLE T (N INTEGER)\nCONNECT A\nBEGIN\nA: INSERT INTO T VALUES (2147483648)\n",
        5,
        LineCause::TypeFault(26),
    ),
    (
        b"DB2ISO 1\nTABLE T (N INTEGER)\nCONNECT A\nBEGIN\nB: INSERT INTO T VALUES ('x')\n",
        5,
        LineCause::Unknown(1),
    ),
    (
        b"DB2ISO 1\nTABLE T (N VARCHAR(32))\nCONNECT A\nBEGIN\nA: INSERT INTO T VALUES ('a\rb')\n",
        5,
        LineCause::Syntax(26),
    ),
    (
        b"DB2ISO 1\nTABLE T (N VARCHAR(32))\nCONNECT A\nBEGIN\nA: SELECT N FROM T WHERE N = 'a\rb' WITH UR\n",
        5,
        LineCause::Syntax(30),
    ),
    (b"", 1, LineCause::Syntax(1)),
    (b"DB2ISO 2\n", 1, LineCause::Syntax(8)),
    (b"DB2ISO 1\r", 1, LineCause::Syntax(9)),
    (b"DB2ISO 1\nBEGIN", 3, LineCause::Syntax(1)),
    (b"DB2ISO 1\nBEGIN\nEND\nEND\n", 4, LineCause::Syntax(1)),
    (
        b"DB2ISO 1\nCONFIG CUR_COMMIT ON\nCONFIG CUR_COMMIT ON\n",
        3,
        LineCause::Duplicate(8),
    ),
    (
        b"DB2ISO 1\nCONNECT A\nCONNECT A\n",
        3,
        LineCause::Duplicate(9),
    ),
    (
        b"DB2ISO 1\nTABLE T (N INTEGER NOT NULL)\nROW T (5)\nROW T (5)\n UNIQUE INDEX I ON T (N)\n",
        5,
        LineCause::Duplicate(2),
    ),
    (
        b"DB2ISO 1\nTABLE T (B BIGINT)\nROW T (-9223372036854775809)\n",
        3,
        LineCause::TypeFault(8),
    ),
    (
        b"DB2ISO 1\nCONNECT A\nBEGIN\nB: COMMIT\n",
        4,
        LineCause::Unknown(1),
    ),
    (
        b"DB2ISO 1\nCONNECT A\nBEGIN\nEXPIRE B\n",
        4,
        LineCause::Unknown(8),
    ),
    (
        b"DB2ISO 1\nCONNECT A\nBEGIN\nA COMMIT\n",
        4,
        LineCause::Syntax(3),
    ),
    (
        b"DB2ISO 1\nCONNECT A\nBEGIN\nA: COMMIT;;\n",
        4,
        LineCause::Syntax(11),
    ),
    (
        b"DB2ISO 1\nCONNECT A\nBEGIN\nCONNECT B\n",
        4,
        LineCause::Syntax(1),
    ),
];

// The numbers of the lines of a script that is read.
fn numbers(alloc: Global, bytes: &[u8]) -> Result<Items<u32>, ScriptFault> {
    let mut found = Items::new(alloc);
    if bytes.len() > 1048576 {
        return Ok(found);
    }
    let script = Script::read(alloc, bytes)?;
    for line in script.lines.as_slice() {
        found.push(line.number)?;
    }
    Ok(found)
}

fn reads(alloc: Global, bytes: &[u8], lines: &[u32]) -> bool {
    match numbers(alloc, bytes) {
        Ok(found) => found.as_slice() == lines,
        Err(_) => false,
    }
}

fn refuses(alloc: Global, bytes: &[u8], line: u32, cause: LineCause) -> bool {
    match numbers(alloc, bytes) {
        Ok(_) => false,
        Err(fault) => fault == ScriptFault::BadLine(line, cause),
    }
}

fn joined(alloc: Global, parts: &[&[u8]]) -> Result<Items<u8>, ScriptFault> {
    let mut whole = Items::new(alloc);
    for part in parts {
        for byte in *part {
            whole.push(*byte)?;
        }
    }
    Ok(whole)
}

fn refuses_head(alloc: Global, line: &[u8], cause: LineCause) -> bool {
    let start = b"DB2ISO 1\nTABLE T (ID INTEGER NOT NULL, V VARCHAR(32))\n";
    match joined(alloc, &[start, line, b"\n"]) {
        Ok(bytes) => refuses(alloc, bytes.as_slice(), 3, cause),
        Err(_) => false,
    }
}

fn tables(alloc: Global, count: u32) -> Result<Items<u8>, ScriptFault> {
    let mut bytes = joined(alloc, &[b"DB2ISO 1\n"])?;
    let names = b"ABCDEFGHIJKLMNOPQ";
    for (at, name) in names.iter().enumerate() {
        if at < count as usize {
            for byte in b"TABLE " {
                bytes.push(*byte)?;
            }
            bytes.push(*name)?;
            for byte in b" (N INTEGER)\n" {
                bytes.push(*byte)?;
            }
        }
    }
    for byte in b"BEGIN\nEND\n" {
        bytes.push(*byte)?;
    }
    Ok(bytes)
}

fn reads_tables(alloc: Global) -> bool {
    match tables(alloc, 16) {
        Ok(bytes) => reads(alloc, bytes.as_slice(), &[]),
        Err(_) => false,
    }
}

fn refuses_tables(alloc: Global) -> bool {
    match tables(alloc, 17) {
        Ok(bytes) => refuses(alloc, bytes.as_slice(), 18, LineCause::Limit(1)),
        Err(_) => false,
    }
}

// Takes a line, or else says why it is refused.
fn comes_to(
    alloc: Global,
    progress: &mut Progress,
    line: &[u8],
    number: u32,
) -> Result<Option<LineCause>, ScriptFault>
    requires kept { IsKept progress.old }
    requires short { length line.now < 2 ^ 32 }
    ensures kept { OnOk result (IsKept progress.new) }
{
    let found = tokens_of(alloc, line)?;
    match progress.said(alloc, line, found.as_slice()) {
        Err(_) => Err(ScriptFault::BadLine(number, LineCause::Syntax(1))),
        Ok(said) => {
            if let Some(fault) = said.fault {
                return Ok(Some(cause_of(fault)));
            }
            progress.advance(number, said.value)?;
            Ok(None)
        }
    }
}

// Whether a line has no fault; it is taken then.
fn takes(
    alloc: Global,
    progress: &mut Progress,
    line: &[u8],
    number: u32,
) -> Result<bool, ScriptFault>
    requires kept { IsKept progress.old }
    requires short { length line.now < 2 ^ 32 }
    ensures kept { OnOk result (IsKept progress.new) }
{
    let cause = comes_to(alloc, progress, line, number)?;
    Ok(cause.is_none())
}

// A script with a table T of one column ID.
fn with_table(alloc: Global) -> Result<Progress, ScriptFault>
    ensures kept { IfOk result (λ p. IsKept p) }
{
    let mut progress = Progress::new(alloc);
    takes(alloc, &mut progress, b"DB2ISO 1", 1)?;
    takes(alloc, &mut progress, b"TABLE T (ID INTEGER NOT NULL)", 2)?;
    Ok(progress)
}

// How many rows a table takes of so many that are offered.
fn rows_taken(alloc: Global, offered: u32) -> Result<u32, ScriptFault> {
    let mut progress = with_table(alloc)?;
    for count in 0..offered {
        if !takes(alloc, &mut progress, b"ROW T (1)", 3)? {
            return Ok(count);
        }
    }
    Ok(offered)
}

fn takes_most(alloc: Global) -> bool {
    match rows_taken(alloc, 70000) {
        Ok(count) => count == 65536,
        Err(_) => false,
    }
}

fn digit(number: u32) -> u8 {
    b'0' + (number % 10) as u8
}

fn row_with(key: u32) -> [u8; 13]
    ensures { length result ≡ 13 }
{
    let mut line = *b"ROW T (00000)";
    line[7] = digit(key / 10000);
    line[8] = digit(key / 1000);
    line[9] = digit(key / 100);
    line[10] = digit(key / 10);
    line[11] = digit(key);
    line
}

// How many rows it takes of so many that are offered with keys from 0 on.
fn keys_taken(alloc: Global, progress: &mut Progress, offered: u32) -> Result<u32, ScriptFault>
    requires kept { IsKept progress.old }
    ensures kept { OnOk result (IsKept progress.new) }
{
    for key in 0..offered {
        if !takes(alloc, progress, &row_with(key), 3)? {
            return Ok(key);
        }
    }
    Ok(offered)
}

// A unique index before the rows.
fn index_first(alloc: Global) -> Result<bool, ScriptFault> {
    let mut progress = with_table(alloc)?;
    let taken = takes(alloc, &mut progress, b"UNIQUE INDEX I ON T (ID)", 3)?;
    Ok(taken && keys_taken(alloc, &mut progress, 70000)? == 65536)
}

// A unique index behind the rows, and then a key that one of them has.
fn index_last(alloc: Global) -> Result<bool, ScriptFault> {
    let mut progress = with_table(alloc)?;
    let count = keys_taken(alloc, &mut progress, 65535)?;
    let taken = takes(alloc, &mut progress, b"UNIQUE INDEX I ON T (ID)", 3)?;
    let repeated = takes(alloc, &mut progress, &row_with(7), 3)?;
    Ok(count == 65535 && taken && !repeated)
}

fn connect_line(number: u32) -> [u8; 11]
    ensures { length result ≡ 11 }
{
    let mut line = *b"CONNECT C00";
    line[9] = digit(number / 10);
    line[10] = digit(number);
    line
}

fn table_line(number: u32) -> [u8; 30]
    ensures { length result ≡ 30 }
{
    let mut line = *b"TABLE T0 (ID INTEGER NOT NULL)";
    line[7] = digit(number);
    line
}

// An index on the table with the other number.
fn index_line(number: u32, table: u32) -> [u8; 20]
    ensures { length result ≡ 20 }
{
    let mut line = *b"INDEX I00 ON T0 (ID)";
    line[7] = digit(number / 10);
    line[8] = digit(number);
    line[14] = digit(table);
    line
}

// How many connections are taken of so many that are offered.
fn connections_taken(
    alloc: Global,
    progress: &mut Progress,
    offered: u32,
) -> Result<u32, ScriptFault>
    requires kept { IsKept progress.old }
    ensures kept { OnOk result (IsKept progress.new) }
{
    for number in 0..offered {
        if !takes(alloc, progress, &connect_line(number), 2)? {
            return Ok(number);
        }
    }
    Ok(offered)
}

fn connection_33(alloc: Global) -> Result<bool, ScriptFault> {
    let mut progress = with_table(alloc)?;
    let count = connections_taken(alloc, &mut progress, 32)?;
    let cause = comes_to(alloc, &mut progress, &connect_line(32), 35)?;
    Ok(count == 32 && cause == Some(LineCause::Limit(1)))
}

// How many tables are taken of so many that are offered.
fn tables_taken(alloc: Global, progress: &mut Progress, offered: u32) -> Result<u32, ScriptFault>
    requires kept { IsKept progress.old }
    ensures kept { OnOk result (IsKept progress.new) }
{
    for number in 0..offered {
        if !takes(alloc, progress, &table_line(number), 2)? {
            return Ok(number);
        }
    }
    Ok(offered)
}

// How many indexes are taken, four on each table, of so many that are offered.
fn indexes_taken(alloc: Global, progress: &mut Progress, offered: u32) -> Result<u32, ScriptFault>
    requires kept { IsKept progress.old }
    ensures kept { OnOk result (IsKept progress.new) }
{
    for number in 0..offered {
        if !takes(alloc, progress, &index_line(number, number / 4), 3)? {
            return Ok(number);
        }
    }
    Ok(offered)
}

fn index_33(alloc: Global) -> Result<bool, ScriptFault> {
    let mut progress = with_table(alloc)?;
    let tables = tables_taken(alloc, &mut progress, 9)?;
    let indexes = indexes_taken(alloc, &mut progress, 32)?;
    let cause = comes_to(alloc, &mut progress, &index_line(32, 8), 44)?;
    Ok(tables == 9 && indexes == 32 && cause == Some(LineCause::Limit(1)))
}

fn index_5_of_a_table(alloc: Global) -> Result<bool, ScriptFault> {
    let mut progress = with_table(alloc)?;
    let tables = tables_taken(alloc, &mut progress, 2)?;
    let indexes = indexes_taken(alloc, &mut progress, 4)?;
    let cause = comes_to(alloc, &mut progress, &index_line(4, 0), 9)?;
    let other = takes(alloc, &mut progress, &index_line(4, 1), 10)?;
    Ok(tables == 2 && indexes == 4 && cause == Some(LineCause::Limit(1)) && other)
}

// Settings at their bounds and past them, with what they are refused for.
const SETTINGS: [(&[u8], Option<LineCause>); 12] = [
    (b"CONFIG LOCKLIST 4", None),
    (b"CONFIG LOCKLIST 4096", None),
    (b"CONFIG MAXLOCKS 1", None),
    (b"CONFIG MAXLOCKS 100", None),
    (b"CONFIG WINDOW 0", Some(LineCause::Limit(15))),
    (b"CONFIG WINDOW 1", None),
    (b"CONFIG WINDOW 1000000", None),
    (b"CONFIG WINDOW 1000001", Some(LineCause::Limit(15))),
    (b"CONFIG LOGMAX 1", Some(LineCause::Limit(15))),
    (b"CONFIG LOGMAX 2", None),
    (b"CONFIG LOGMAX 1000000", None),
    (b"CONFIG LOGMAX 1000001", Some(LineCause::Limit(15))),
];

fn setting_cause(alloc: Global, line: &[u8]) -> Result<Option<LineCause>, ScriptFault> {
    let mut progress = with_table(alloc)?;
    if line.len() > 100 {
        return Err(ScriptFault::BadLine(3, LineCause::Syntax(1)));
    }
    comes_to(alloc, &mut progress, line, 3)
}

fn setting_comes_to(alloc: Global, line: &[u8], cause: Option<LineCause>) -> bool {
    match setting_cause(alloc, line) {
        Ok(found) => found == cause,
        Err(_) => false,
    }
}

fn holds(outcome: Result<bool, ScriptFault>) -> bool {
    match outcome {
        Ok(holds) => holds,
        Err(_) => false,
    }
}

#[test]
fn connection_33_is_refused_at_place_1(rt: HostRuntime) {
    assert!(rt; holds(connection_33(rt.alloc())));
}

#[test]
fn index_33_is_refused_at_place_1(rt: HostRuntime) {
    assert!(rt; holds(index_33(rt.alloc())));
}

#[test]
fn index_5_of_a_table_is_refused_at_place_1(rt: HostRuntime) {
    assert!(rt; holds(index_5_of_a_table(rt.alloc())));
}

#[test]
fn settings_have_bounds(rt: HostRuntime) {
    for (line, cause) in SETTINGS {
        assert!(rt; setting_comes_to(rt.alloc(), line, cause), "{line:?}");
    }
}

#[test]
fn a_table_takes_65536_rows(rt: HostRuntime) {
    assert!(rt; takes_most(rt.alloc()));
}

#[test]
fn a_unique_index_takes_65536_keys(rt: HostRuntime) {
    assert!(rt; holds(index_first(rt.alloc())));
}

#[test]
fn a_unique_index_behind_65535_rows_is_taken(rt: HostRuntime) {
    assert!(rt; holds(index_last(rt.alloc())));
}

#[test]
fn scripts_are_read(rt: HostRuntime) {
    assert!(rt; reads(rt.alloc(), LEAST, &[]));
    assert!(rt; reads(rt.alloc(), LOOSE, &[14, 15, 16, 17]));
    assert!(rt; reads(rt.alloc(), SEVERAL, &[8, 9, 10, 11]));
}

#[test]
fn head_lines_are_refused_with_cause_and_place(rt: HostRuntime) {
    for (line, cause) in HEADS {
        assert!(rt; refuses_head(rt.alloc(), line, cause), "{line:?}");
    }
}

#[test]
fn others_are_refused_at_their_first_bad_line(rt: HostRuntime) {
    for (bytes, line, cause) in REFUSED {
        assert!(rt; refuses(rt.alloc(), bytes, line, cause), "line {line}");
    }
}

#[test]
fn sixteen_tables_are_the_most(rt: HostRuntime) {
    assert!(rt; reads_tables(rt.alloc()));
    assert!(rt; refuses_tables(rt.alloc()));
}

use super::*;
use iso_io::{Sink, SinkMemory, SinkStd, Source, SourceMemory, SourceStd};
use iso_types::{Items, OpenGate};
use std::io::{self, Read, Write};
use std::sync::Wait;
use std::test::Fail;
use std::thread::Threads;

const FIRST: &[u8] =
    b"DB2ISO 1\nTABLE T (N INTEGER)\nCONNECT A\nBEGIN\nA: INSERT INTO T VALUES (7)\nA: SELECT N FROM T WITH UR\nA: COMMIT\nEND\n";

const TOLD: &[u8] = b"5 A SQLCODE 0 ROWS 1\n6 A ROW 7\n6 A SQLCODE 0\n7 A SQLCODE 0\nEND\n";

// The first script with a comment, empty lines, CR LF, tabs and small letters.
const LOOSE: &[u8] =
    b"-- first\r\n\r\ndb2iso\t1\r\nTable T (n Integer)\r\n\t\r\nconnect a\r\nbegin\r\n\ta: insert into t values (7)\r\na: select n from t with ur\r\nA :commit\r\nend\r\n";

const LOOSELY_TOLD: &[u8] =
    b"8 A SQLCODE 0 ROWS 1\n9 A ROW 7\n9 A SQLCODE 0\n10 A SQLCODE 0\nEND\n";

const EMPTY: &[u8] =
    b"DB2ISO 1\nTABLE T (N INTEGER, M INTEGER)\nCONNECT A\nBEGIN\nA: SELECT M FROM T WITH UR\nA: INSERT INTO T VALUES (NULL, -3)\nA: SELECT N FROM T WITH UR\nA: COMMIT\nEND\n";

const EMPTY_TOLD: &[u8] =
    b"5 A SQLCODE 100\n6 A SQLCODE 0 ROWS 1\n7 A ROW NULL\n7 A SQLCODE 0\n8 A SQLCODE 0\nEND\n";

// The words, the script, what is written, and the status.
const CASES: [(&[&str], &[u8], &[u8], u8); 25] = [
    (&["serial"], FIRST, TOLD, 0),
    (&["serial"], LOOSE, LOOSELY_TOLD, 0),
    (&["serial"], EMPTY, EMPTY_TOLD, 0),
    (&["serial"], b"DB2ISO 1\nBEGIN\nEND\n", b"END\n", 0),
    (
        &["serial"],
        b"DB2ISO 1\nTABLE T (N INTEGER)\nCONNECT A\nBEGIN\nA: INSERT INTO T VALUES (7)\nA: SELECT N FROM T WITH UR\nA: COMMIT\n",
        b"LINE 8 SYNTAX AT 1\n",
        2,
    ),
    (&[], FIRST, b"USAGE\n", 1),
    (&["serial", "serial"], FIRST, b"USAGE\n", 1),
    (&["SERIAL"], FIRST, b"USAGE\n", 1),
    (&["run"], FIRST, TOLD, 0),
    (&[""], FIRST, b"USAGE\n", 1),
    (&["serial"], b"", b"LINE 1 SYNTAX AT 1\n", 2),
    (
        &["serial"],
        b"DB2ISO 1\nTABLE T (ID INTEGER, V INTEGER)\nROW T (1, 100)\nROW T (2, NULL)\nCONNECT A\nBEGIN\nA: SELECT ID FROM T WHERE NOT V = 7 WITH UR\nA: SELECT COUNT(*) FROM T WHERE V IS NULL OR ID > 5 WITH UR\nA: COMMIT\nEND\n",
        b"7 A ROW 1\n7 A SQLCODE 0\n8 A ROW 1\n8 A SQLCODE 0\n9 A SQLCODE 0\nEND\n",
        0,
    ),
    (
        &["serial"],
        b"DB2ISO 1\nTABLE U (K BIGINT)\nTABLE T (ID INTEGER NOT NULL, V VARCHAR(8))\nROW T (1, 'it''s')\nROW U (9223372036854775807)\nCONNECT A\nBEGIN\nA: INSERT INTO T VALUES (NULL, 'x')\nA: INSERT INTO T (V, ID) VALUES ('y', 2)\nA: SELECT * FROM T WITH UR\nA: SELECT K FROM U WHERE K > 5 WITH UR\nA: SELECT V, ID FROM T WHERE ID BETWEEN 2 AND 3 WITH UR\nA: INSERT INTO T (ID) VALUES (3)\nA: SELECT V FROM T WHERE V IS NULL WITH UR\nA: COMMIT\nEND\n",
        b"8 A SQLCODE -407\n9 A SQLCODE 0 ROWS 1\n10 A ROW 1, 'it''s'\n10 A ROW 2, 'y'\n10 A SQLCODE 0\n11 A ROW 9223372036854775807\n11 A SQLCODE 0\n12 A ROW 'y', 2\n12 A SQLCODE 0\n13 A SQLCODE 0 ROWS 1\n14 A ROW NULL\n14 A SQLCODE 0\n15 A SQLCODE 0\nEND\n",
        0,
    ),
    (
        &["serial"],
        b"DB2ISO 1\nTABLE T (ID INTEGER)\nCONNECT A\nBEGIN\nA: SELECT COUNT(*) FROM T WITH UR\nA: SELECT * FROM T WITH UR\nA: COMMIT\nEND\n",
        b"5 A ROW 0\n5 A SQLCODE 0\n6 A SQLCODE 100\n7 A SQLCODE 0\nEND\n",
        0,
    ),
    (
        &["serial"],
        b"DB2ISO 1\nCONNECT A\nBEGIN\nEND\n",
        b"END\n",
        0,
    ),
    (
        &["serial"],
        b"DB2ISO 1\nTABLE T (ID INTEGER",
        b"LINE 2 SYNTAX AT 20\n",
        2,
    ),
    (&["serial"], b"DB2ISO 1\nBEGIN", b"LINE 3 SYNTAX AT 1\n", 2),
    (
        &["serial"],
        b"DB2ISO 1\nTABLE T (N VARCHAR(32))\nROW T ('ABCDEFGHIJKLMNOPQRSTUVWXYZABCDEFG')",
        b"LINE 3 TYPE AT 8\n",
        2,
    ),
    (
        &["serial"],
        b"DB2ISO 1\nTABLE T (N VARCHAR(32))\nCONNECT A\nBEGIN\nA: DELETE FROM T WHERE N = 'ABCDEFGHIJKLMNOPQRSTUVWXYZABCDEFG'",
        b"LINE 5 LIMIT AT 28\n",
        2,
    ),
    (
        &["serial"],
        b"DB2ISO 1\nCONNECT A\nBEGIN\nA: SELECT * FROM T\nEND",
        b"LINE 4 UNKNOWN AT 18\n",
        2,
    ),
    (
        &["serial"],
        b"DB2ISO 1\nCONNECT A\nCONNECT A",
        b"LINE 3 DUPLICATE AT 9\n",
        2,
    ),
    (
        &["serial"],
        b"DB2ISO 1\nTABLE T (N INTEGER)\nROW T ('x')",
        b"LINE 3 TYPE AT 8\n",
        2,
    ),
    (
        &["serial"],
        b"DB2ISO 1\nTABLE T (ID INTEGER, V INTEGER)\nROW T (1, 100)\nROW T (2, NULL)\nCONNECT A\nBEGIN\nA: SELECT ID FROM T WHERE V > NULL WITH UR\n",
        b"LINE 7 SYNTAX AT 31\n",
        2,
    ),
    (
        &["serial"],
        b"DB2ISO 1\nTABLE T (N INTEGER)\nCONNECT A\nBEGIN\nA: DELETE FROM T WITH RR\nA: COMMIT\nEND\n",
        b"5 A SQLCODE 100\n6 A SQLCODE 0\nEND\n",
        0,
    ),
    (
        &["serial"],
        b"DB2ISO 1\nTABLE T (N INTEGER)\nCONNECT A\nBEGIN\nA: INSERT INTO T VALUES (7)\nEND\n",
        b"5 A SQLCODE 0 ROWS 1\nEND\n",
        0,
    ),
];

// Scripts of several connections, and of every statement, as CASES.
const WORKED: [(&[&str], &[u8], &[u8], u8); 13] = [
    (
        &["serial"],
        b"DB2ISO 1\nTABLE T (ID INTEGER NOT NULL, V INTEGER)\nROW T (1, 100)\nROW T (2, 200)\nCONNECT A\nCONNECT B\nBEGIN\nA: UPDATE T SET V = 110 WHERE ID = 1\nB: SELECT V FROM T WHERE ID = 1\nA: COMMIT\nB: SELECT V FROM T WHERE ID = 1\nEND\n",
        b"8 A SQLCODE 0 ROWS 1\n9 B ROW 100\n9 B SQLCODE 0\n10 A SQLCODE 0\n11 B ROW 110\n11 B SQLCODE 0\nEND\n",
        0,
    ),
    (
        &["serial"],
        b"DB2ISO 1\nCONFIG CUR_COMMIT DISABLED\nTABLE T (ID INTEGER NOT NULL, V INTEGER)\nROW T (1, 100)\nROW T (2, 200)\nCONNECT A\nCONNECT B\nBEGIN\nA: UPDATE T SET V = 110 WHERE ID = 1\nB: SELECT V FROM T WHERE ID = 1\nA: COMMIT\nB: SELECT V FROM T WHERE ID = 1\nEND\n",
        b"9 A SQLCODE 0 ROWS 1\n10 B WAITS NS ROW T 0\n11 A SQLCODE 0\n10 B ROW 110\n10 B SQLCODE 0\n12 B ROW 110\n12 B SQLCODE 0\nEND\n",
        0,
    ),
    (
        &["serial"],
        b"DB2ISO 1\nTABLE T (ID INTEGER NOT NULL, V INTEGER)\nROW T (1, 100)\nROW T (2, 200)\nCONNECT A\nCONNECT B\nBEGIN\nA: UPDATE T SET V = 110 WHERE ID = 1\nB: SELECT V FROM T WHERE ID = 1 WITH UR\nA: ROLLBACK\nB: SELECT V FROM T WHERE ID = 1 WITH UR\nEND\n",
        b"8 A SQLCODE 0 ROWS 1\n9 B ROW 110\n9 B SQLCODE 0\n10 A SQLCODE 0\n11 B ROW 100\n11 B SQLCODE 0\nEND\n",
        0,
    ),
    (
        &["serial"],
        b"DB2ISO 1\nCONFIG CUR_COMMIT DISABLED\nTABLE T (ID INTEGER NOT NULL, V INTEGER)\nROW T (1, 100)\nROW T (2, 200)\nCONNECT A\nCONNECT B\nBEGIN\nA: UPDATE T SET V = 110 WHERE ID = 1\nB: SELECT V FROM T WHERE ID = 1 WITH UR\nA: ROLLBACK\nB: SELECT V FROM T WHERE ID = 1 WITH UR\nEND\n",
        b"9 A SQLCODE 0 ROWS 1\n10 B ROW 110\n10 B SQLCODE 0\n11 A SQLCODE 0\n12 B ROW 100\n12 B SQLCODE 0\nEND\n",
        0,
    ),
    (
        &["serial"],
        b"DB2ISO 1\nTABLE T (ID INTEGER NOT NULL, V INTEGER)\nROW T (1, 100)\nROW T (2, 200)\nCONNECT A\nCONNECT B\nBEGIN\nA: INSERT INTO T VALUES (3, 300)\nA: SAVEPOINT S1\nA: DELETE FROM T WHERE ID = 3\nA: ROLLBACK TO SAVEPOINT S1\nA: UPDATE T SET V = 301 WHERE ID = 3\nB: SELECT ID FROM T\nA: SELECT V FROM T WHERE ID = 3\nA: ROLLBACK TO SAVEPOINT S2\nEND\n",
        b"8 A SQLCODE 0 ROWS 1\n9 A SQLCODE 0\n10 A SQLCODE 0 ROWS 1\n11 A SQLCODE 0\n12 A SQLCODE 0 ROWS 1\n13 B ROW 1\n13 B ROW 2\n13 B SQLCODE 0\n14 A ROW 301\n14 A SQLCODE 0\n15 A SQLCODE -880\nEND\n",
        0,
    ),
    (
        &["serial"],
        b"DB2ISO 1\nTABLE T (ID INTEGER NOT NULL, V INTEGER)\nROW T (1, 100)\nROW T (2, 200)\nCONNECT A\nCONNECT B RS\nBEGIN\nB: SELECT V FROM T WHERE ID = 1\nA: INSERT INTO T VALUES (1, 500)\nA: COMMIT\nB: SELECT V FROM T WHERE ID = 1\nA: UPDATE T SET V = 0 WHERE ID = 1\nB: COMMIT\nEND\n",
        b"8 B ROW 100\n8 B SQLCODE 0\n9 A SQLCODE 0 ROWS 1\n10 A SQLCODE 0\n11 B ROW 100\n11 B ROW 500\n11 B SQLCODE 0\n12 A WAITS X ROW T 0\n13 B SQLCODE 0\n12 A SQLCODE 0 ROWS 2\nEND\n",
        0,
    ),
    (
        &["serial"],
        b"DB2ISO 1\nCONFIG CUR_COMMIT DISABLED\nTABLE T (ID INTEGER NOT NULL, V INTEGER)\nROW T (1, 100)\nROW T (2, 200)\nCONNECT A\nCONNECT B RS\nBEGIN\nB: SELECT V FROM T WHERE ID = 1\nA: INSERT INTO T VALUES (1, 500)\nA: COMMIT\nB: SELECT V FROM T WHERE ID = 1\nA: UPDATE T SET V = 0 WHERE ID = 1\nB: COMMIT\nEND\n",
        b"9 B ROW 100\n9 B SQLCODE 0\n10 A SQLCODE 0 ROWS 1\n11 A SQLCODE 0\n12 B ROW 100\n12 B ROW 500\n12 B SQLCODE 0\n13 A WAITS X ROW T 0\n14 B SQLCODE 0\n13 A SQLCODE 0 ROWS 2\nEND\n",
        0,
    ),
    (
        &["serial"],
        b"DB2ISO 1\nCONFIG LOGMAX 3\nTABLE T (ID INTEGER NOT NULL, V INTEGER)\nROW T (1, 100)\nROW T (2, 200)\nCONNECT A\nBEGIN\nA: UPDATE T SET V = 0\nA: UPDATE T SET V = 0 WHERE ID = 1\nA: COMMIT\nA: UPDATE T SET V = 0 WHERE ID = 1\nEND\n",
        b"8 A SQLCODE -964\n9 A SQLCODE -964\n10 A SQLCODE 0\n11 A SQLCODE 0 ROWS 1\nEND\n",
        0,
    ),
    (
        &["serial"],
        b"DB2ISO 1\nTABLE T (ID INTEGER NOT NULL, V INTEGER)\nROW T (1, 100)\nROW T (2, NULL)\nCONNECT A\nCONNECT B\nBEGIN\nA: INSERT INTO T VALUES (NULL, 1)\nA: SELECT ID FROM T WHERE NOT V = 7\nA: SELECT * FROM T\nA: UPDATE T SET V = 5\nB: DELETE FROM T\nB: COMMIT\nA: COMMIT\nEND\n",
        b"8 A SQLCODE -407\n9 A ROW 1\n9 A SQLCODE 0\n10 A ROW 1, 100\n10 A ROW 2, NULL\n10 A SQLCODE 0\n11 A SQLCODE 0 ROWS 2\n12 B WAITS U ROW T 0\n13 B BUSY\n14 A SQLCODE 0\n12 B SQLCODE 0 ROWS 2\nEND\n",
        0,
    ),
    (
        &["serial"],
        b"DB2ISO 1\nTABLE T (ID INTEGER NOT NULL, V INTEGER)\nROW T (1, 100)\nCONNECT A\nBEGIN\nA: INSERT INTO T VALUES (3, 300)\nA: SAVEPOINT S1\nA: DELETE FROM T WHERE ID = 3\nA: ROLLBACK TO SAVEPOINT S1\nA: UPDATE T SET V = V + 1 WHERE ID = 3\nA: SELECT V FROM T WITH UR\nA: ROLLBACK\nA: SELECT V FROM T WITH UR\nA: ROLLBACK TO SAVEPOINT S1\nEND\n",
        b"6 A SQLCODE 0 ROWS 1\n7 A SQLCODE 0\n8 A SQLCODE 0 ROWS 1\n9 A SQLCODE 0\n10 A SQLCODE 0 ROWS 1\n11 A ROW 100\n11 A ROW 301\n11 A SQLCODE 0\n12 A SQLCODE 0\n13 A ROW 100\n13 A SQLCODE 0\n14 A SQLCODE -880\nEND\n",
        0,
    ),
    (
        &["serial"],
        b"DB2ISO 1\nCONFIG CUR_COMMIT DISABLED\nTABLE T (V INTEGER)\nROW T (100)\nCONNECT A RS\nCONNECT B RS\nBEGIN\nA: SELECT V FROM T\nB: SELECT V FROM T\nA: UPDATE T SET V = 1\nB: UPDATE T SET V = 2\nA: COMMIT\nEND\n",
        b"8 A ROW 100\n8 A SQLCODE 0\n9 B ROW 100\n9 B SQLCODE 0\n10 A WAITS X ROW T 0\n11 B WAITS U ROW T 0\n11 B SQLCODE -911 REASON 2\n10 A SQLCODE 0 ROWS 1\n12 A SQLCODE 0\nEND\n",
        0,
    ),
    (
        &["serial"],
        b"DB2ISO 1\nCONFIG WINDOW 4\nTABLE T (V INTEGER)\nROW T (10)\nROW T (20)\nCONNECT A\nCONNECT B\nBEGIN\nA: UPDATE T SET V = 0\nA: UPDATE T SET V = V + 1\nB: SELECT V FROM T\nA: UPDATE T SET V = V + 1\nB: SELECT V FROM T\nA: COMMIT\nEND\n",
        b"9 A SQLCODE 0 ROWS 2\n10 A SQLCODE 0 ROWS 2\n11 B ROW 10\n11 B ROW 20\n11 B SQLCODE 0\n12 A SQLCODE 0 ROWS 2\n13 B WAITS NS ROW T 0\n14 A SQLCODE 0\n13 B ROW 2\n13 B ROW 2\n13 B SQLCODE 0\nEND\n",
        0,
    ),
    (
        &["serial"],
        b"DB2ISO 1\nCONFIG LOCKLIST 4\nCONFIG MAXLOCKS 1\nTABLE T (ID INTEGER NOT NULL, V INTEGER)\nROW T (1, 100)\nROW T (2, 200)\nCONNECT A\nBEGIN\nA: UPDATE T SET V = 0\nA: LOCK TABLE T IN EXCLUSIVE MODE\nA: UPDATE T SET V = 0\nEND\n",
        b"9 A SQLCODE -912\n10 A SQLCODE 0\n11 A SQLCODE 0 ROWS 2\nEND\n",
        0,
    ),
];

// The status for these words and streams, and the number of entries.
fn answer<R: Threads + Wait + Sync + AllocGlobal, S: Source, K: Sink>(
    rt: &R,
    words: &[&str],
    source: &mut S,
    sink: &mut K,
) -> Result<(u8, usize), Fail> {
    let mut list = Vec::new(rt.alloc());
    for word in words {
        list.push(format!(in rt.alloc(); "{word}")?)?;
    }
    let report = db2iso(rt, rt.alloc(), list.as_slice(), source, sink, &OpenGate);
    Ok((report.status, report.history.len()))
}

// A reader and writer of std that moves so many bytes, and then fails.
#[derive(Drop)]
struct Failing(usize);

impl Read for Failing {
    fn read(&mut self, buf: &mut [u8]) -> io::Result<usize> {
        let n = self.0.min(buf.len());
        if n == 0 {
            return Err(io::ErrorKind::Other.into());
        }
        self.0 -= n;
        Ok(n)
    }
}

impl Write for Failing {
    fn write(&mut self, buf: &[u8]) -> io::Result<usize> {
        let n = self.0.min(buf.len());
        if n == 0 {
            return Err(io::ErrorKind::Other.into());
        }
        self.0 -= n;
        Ok(n)
    }

    fn flush(&mut self) -> io::Result<()> {
        Ok(())
    }
}

// Whether a reader of std that fails after so many bytes gives status 3, no history, and nothing written.
fn reader_fails<R: Threads + Wait + Sync + AllocGlobal>(
    rt: &R,
    count: usize,
) -> Result<bool, Fail> {
    let mut from = SourceStd::new(Failing(count));
    let mut to = sink(rt, 4096, &[])?;
    let told = answer(rt, &["serial"], &mut from, &mut to)?;
    Ok(told.0 == 3 && told.1 == 0 && to.held().is_empty())
}

// Whether a writer of std that fails after so many bytes gives status 4, and the whole history.
fn writer_fails<R: Threads + Wait + Sync + AllocGlobal>(
    rt: &R,
    count: usize,
) -> Result<bool, Fail> {
    let mut from = source(rt, FIRST, 4096, &[])?;
    let mut to = SinkStd::new(Failing(count));
    let told = answer(rt, &["serial"], &mut from, &mut to)?;
    Ok(told.0 == 4 && told.1 == 14)
}

// A source of these bytes, so many a call, whose listed calls fail.
fn source(
    rt: &impl AllocGlobal,
    bytes: &[u8],
    most: usize,
    fails: &[bool],
) -> Result<SourceMemory, Fail> {
    let bytes = Items::from_vec(bytes.to_vec(rt.alloc())?);
    let fails = Items::from_vec(fails.to_vec(rt.alloc())?);
    Ok(SourceMemory::new(bytes, most.max(1), fails))
}

// A sink that takes so many bytes a call, and whose listed calls fail.
fn sink(rt: &impl AllocGlobal, most: usize, fails: &[bool]) -> Result<SinkMemory, Fail> {
    let fails = Items::from_vec(fails.to_vec(rt.alloc())?);
    Ok(SinkMemory::new(rt.alloc(), most.max(1), fails))
}

// Whether a case gives its output and status, with so many bytes a call.
fn gives<R: Threads + Wait + Sync + AllocGlobal>(
    rt: &R,
    words: &[&str],
    script: &[u8],
    output: &[u8],
    status: u8,
    most: usize,
) -> Result<bool, Fail> {
    let mut from = source(rt, script, most, &[])?;
    let mut to = sink(rt, most, &[])?;
    let told = answer(rt, words, &mut from, &mut to)?;
    Ok(told.0 == status && to.held() == output)
}

// Whether a sink that fails after so many bytes holds just these of the output, with status `status`.
fn fails_after<R: Threads + Wait + Sync + AllocGlobal>(
    rt: &R,
    words: &[&str],
    script: &[u8],
    output: &[u8],
    count: usize,
    status: u8,
) -> Result<bool, Fail> {
    let mut from = source(rt, script, 4096, &[])?;
    let mut to = sink(rt, count, if count == 0 { &[true] } else { &[false, true] })?;
    let told = answer(rt, words, &mut from, &mut to)?;
    Ok(told.0 == status && to.held() == &output[..count.min(output.len())])
}

// Whether a source with so many bytes a call, whose listed calls fail, gives status 3 with nothing written.
fn source_fails<R: Threads + Wait + Sync + AllocGlobal>(
    rt: &R,
    most: usize,
    fails: &[bool],
) -> Result<bool, Fail> {
    let mut from = source(rt, FIRST, most, fails)?;
    let mut to = sink(rt, 4096, &[])?;
    let told = answer(rt, &["serial"], &mut from, &mut to)?;
    Ok(told.0 == 3 && told.1 == 0 && to.held().is_empty())
}

// A script of one line, and what is told of it with its trace.
const ONE: &[u8] =
    b"DB2ISO 1\nTABLE T (N INTEGER)\nCONNECT A\nBEGIN\nA: INSERT INTO T VALUES (7)\nEND\n";

const TRACED: &[u8] =
    b"5 A SQLCODE 0 ROWS 1\nEND\nTRACE 8\n0 - DISPATCH 5 A\n1 A LOCK TABLE T IX KEPT ASKED GRANTED\n2 A INSERT T 0 (7)\n3 A REPLY 0 1\n4 - CLOSE A\n5 A UNDO 0\n6 A ENDED\n7 - FINISH\n";

// The script of seed 7 with two lines, made by another program.
const MADE: &[u8] =
    b"DB2ISO 1\nTABLE ACCT (ID INTEGER NOT NULL, BAL BIGINT NOT NULL, TAG VARCHAR(8))\nUNIQUE INDEX PK ON ACCT (ID)\nROW ACCT (10, 1000, 'a')\nROW ACCT (20, 1000, 'a')\nROW ACCT (30, 1000, 'a')\nROW ACCT (40, 1000, 'a')\nROW ACCT (50, 1000, 'a')\nROW ACCT (60, 1000, 'a')\nROW ACCT (70, 1000, 'a')\nROW ACCT (80, 1000, 'a')\nROW ACCT (90, 1000, 'a')\nROW ACCT (100, 1000, 'a')\nROW ACCT (110, 1000, 'a')\nROW ACCT (120, 1000, 'a')\nROW ACCT (130, 1000, 'a')\nROW ACCT (140, 1000, 'a')\nROW ACCT (150, 1000, 'a')\nROW ACCT (160, 1000, 'a')\nROW ACCT (170, 1000, 'a')\nROW ACCT (180, 1000, 'a')\nROW ACCT (190, 1000, 'a')\nROW ACCT (200, 1000, 'a')\nCONNECT A CS\nCONNECT B CS\nCONNECT C RS\nCONNECT D RR\nBEGIN\nB: SELECT BAL FROM ACCT WHERE ID = 50\nA: DELETE FROM ACCT WHERE ID = 269\nEND\n";

// A deadlock of two connections, and then a wait that times out.
const TWO: &[u8] =
    b"DB2ISO 1\nCONFIG CUR_COMMIT DISABLED\nTABLE T (V INTEGER)\nROW T (100)\nCONNECT A RS\nCONNECT B RS\nBEGIN\nA: SELECT V FROM T\nB: SELECT V FROM T\nA: UPDATE T SET V = 1\nB: UPDATE T SET V = 2\nB: SELECT V FROM T\nEXPIRE B\nA: COMMIT\nEND\n";

const TWO_TOLD: &[u8] =
    b"8 A ROW 100\n8 A SQLCODE 0\n9 B ROW 100\n9 B SQLCODE 0\n10 A WAITS X ROW T 0\n11 B WAITS U ROW T 0\n11 B SQLCODE -911 REASON 2\n10 A SQLCODE 0 ROWS 1\n12 B WAITS NS ROW T 0\n13 EXPIRE B\n12 B SQLCODE -911 REASON 68\n14 A SQLCODE 0\nEND\n";

// Two connections at work at the same time, and what is told of them with the seed 5.
const BESIDE: &[u8] =
    b"DB2ISO 1\nTABLE T (ID INTEGER NOT NULL, V INTEGER)\nROW T (1, 100)\nCONNECT A\nCONNECT B\nBEGIN\nA: UPDATE T SET V = V + 1\n& B: UPDATE T SET V = V + 10\n& A: COMMIT\nB: COMMIT\nEND\n";

const BESIDE_TOLD: &[u8] =
    b"7 A WAITS U ROW T 0\n9 A BUSY\n8 B SQLCODE 0 ROWS 1\n10 B SQLCODE 0\n7 A SQLCODE 0 ROWS 1\nEND\n";

// The other jobs, and words that name none.
const JOBS: [(&[&str], &[u8], &[u8], u8); 14] = [
    (&["serial", "--trace"], ONE, TRACED, 0),
    (&["run", "--trace"], ONE, TRACED, 0),
    (&["serial"], TWO, TWO_TOLD, 0),
    (&["run"], TWO, TWO_TOLD, 0),
    (&["serial", "--seed", "5"], BESIDE, BESIDE_TOLD, 0),
    (
        &["--trace", "serial"],
        b"DB2ISO 1\nBEGIN\nEND\n",
        b"END\nTRACE 1\n0 - FINISH\n",
        0,
    ),
    (&["check"], FIRST, b"SCRIPT OK 3\n", 0),
    (&["check"], b"DB2ISO 1\nBEGIN", b"LINE 3 SYNTAX AT 1\n", 2),
    (&["generate", "--seed", "7", "--count=2"], b"", MADE, 0),
    (&["serial", "--seed"], FIRST, b"USAGE\n", 1),
    (&["run", "--seed", "1"], FIRST, b"USAGE\n", 1),
    (&["check", "--trace"], FIRST, b"USAGE\n", 1),
    (&["mix", "--seed", "7"], FIRST, b"USAGE\n", 1),
    (
        &["mix", "--seed", "7", "--count", "0"],
        FIRST,
        b"USAGE\n",
        1,
    ),
];

#[test]
fn jobs_give_their_output(rt: HostRuntime) -> Result<(), Fail> {
    for (words, script, output, status) in JOBS {
        assert!(rt;
            gives(&rt, words, script, output, status, 4096)?,
            "{words:?}"
        );
    }
    Ok(())
}

#[test]
fn scripts_give_their_output(rt: HostRuntime) -> Result<(), Fail> {
    for (words, script, output, status) in CASES {
        for most in [1, 7, 4096] {
            assert!(rt;
                gives(&rt, words, script, output, status, most)?,
                "{status}, {most}"
            );
        }
    }
    for (words, script, output, status) in WORKED {
        assert!(rt;
            gives(&rt, words, script, output, status, 4096)?,
            "{script:?}"
        );
    }
    let mut from = source(&rt, FIRST, 4096, &[])?;
    let mut to = sink(&rt, 4096, &[])?;
    assert_eq!(rt; answer(&rt, &["serial"], &mut from, &mut to)?, (0, 14));
    Ok(())
}

#[test]
fn streams_that_fail(rt: HostRuntime) -> Result<(), Fail> {
    assert!(rt; source_fails(&rt, 10, &[true])?);
    assert!(rt; source_fails(&rt, 10, &[false, true])?);
    // a failed read behind the last byte is no end
    assert!(rt; source_fails(&rt, 4096, &[false, true])?);
    for count in 0..TOLD.len() {
        assert!(rt;
            fails_after(&rt, &["serial"], FIRST, TOLD, count, 4)?,
            "{count}"
        );
    }
    for count in 0..6 {
        assert!(rt;
            fails_after(&rt, &["runs"], FIRST, b"USAGE\n", count, 1)?,
            "{count}"
        );
    }
    for count in 0..20 {
        assert!(rt;
            fails_after(&rt, &["serial"], b"", b"LINE 1 SYNTAX AT 1\n", count, 2)?,
            "{count}"
        );
    }
    Ok(())
}

#[test]
fn streams_of_std_that_fail(rt: HostRuntime) -> Result<(), Fail> {
    assert!(rt; reader_fails(&rt, 0)?);
    assert!(rt; reader_fails(&rt, 10)?);
    assert!(rt; writer_fails(&rt, 0)?);
    assert!(rt; writer_fails(&rt, 5)?);
    Ok(())
}

#[test]
fn a_script_too_long(rt: HostRuntime) -> Result<(), Fail> {
    let long = vec![in rt.alloc(); b'-'; 1_048_577]?;
    assert!(rt; gives(&rt, &["serial"], &long, b"LINE 0 TOO LONG\n", 2, 1_000_000)?);
    Ok(())
}

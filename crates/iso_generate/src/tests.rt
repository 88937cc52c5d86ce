use super::*;
use std::test::Fail;

// The last lines of the script of seed 7 with six body lines, made by another program.
const LAST: &[u8] =
    b"BEGIN\nB: SELECT BAL FROM ACCT WHERE ID = 50\nA: DELETE FROM ACCT WHERE ID = 269\n& D: SELECT BAL FROM ACCT WHERE ID = 70\nA: COMMIT\nB: SELECT BAL FROM ACCT WHERE ID = 140\n& C: ROLLBACK\nEND\n";

#[test]
fn last_lines(rt: HostRuntime) -> Result<(), Fail> {
    let text = generate(rt.alloc(), 7, 6).map_err(|_| "no memory")?;
    assert!(rt;
        text.as_slice()
            .starts_with(b"DB2ISO 1\nTABLE ACCT (ID INTEGER NOT NULL, ")
    );
    assert!(rt; text.as_slice().ends_with(LAST));
    Ok(())
}

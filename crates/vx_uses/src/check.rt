//! A transcript is judged, whole, cut, and with a record that is not the machine's.

use std::alloc::Global;
use std::test::*;
use vx_base::{Bytes, NoMemory};
use vx_check::{Verdict, check_text};

/// A wait for all of no flags, which is satisfied at once. A transcript begins with the canonical script.
const SCRIPT: &[u8] = b"IMAGE MAIN
  $WFLAND 1,0
END
PROCESS P MAIN UIC=1:1 MODE=USER ASTLM=24 BIOLM=18 DIOLM=18 BYTLM=8192 TQELM=10 PRIV=NONE START=1
$JOURNAL 1
";

const RECORDS: &[u8] = b"1 RUN 1 $WFLAND 1,0 NORMAL
2 RUN 1 END
3 RDN 1 GONE
 GONE 1
";

/// The process does not wait, so the first record is none of the machine's.
const WAITING: &[u8] = b"1 RUN 1 $WFLAND 1,0 WAIT
";

const TRAILER: &[u8] = b"PROCESS 1 P GONE 1
$END DONE 3
";

// The script with these lines behind it.
fn transcript(alloc: Global, records: &[u8], trailer: &[u8]) -> Result<Bytes, NoMemory> {
    let mut text = Bytes::new(alloc);
    text.push_all(SCRIPT)?;
    text.push_all(records)?;
    text.push_all(trailer)?;
    Ok(text)
}

fn verdict_of(alloc: Global, records: &[u8], trailer: &[u8]) -> Result<Verdict, Fail> {
    let text = transcript(alloc, records, trailer).ok().ok_or("memory")?;
    let text = text.as_slice();
    if text.len() > 1000 {
        return Err("a short text".into());
    }
    Ok(check_text(alloc, text).ok().ok_or("a transcript")?)
}

#[test]
fn a_transcript_has_one_verdict(rt: HostRuntime) -> Result<(), Fail> {
    let whole = verdict_of(rt.alloc(), RECORDS, TRAILER)?;
    assert!(rt; matches!(whole, Verdict::Complete(3)));
    let cut = verdict_of(rt.alloc(), RECORDS, b"".as_slice())?;
    assert!(rt; matches!(cut, Verdict::Prefix(3)));
    let wrong = verdict_of(rt.alloc(), WAITING, b"".as_slice())?;
    assert!(rt; matches!(wrong, Verdict::Bad(1)));
    Ok(())
}

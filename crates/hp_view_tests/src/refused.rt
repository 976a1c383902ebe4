//! Words, windows and journals that are refused.

use crate::caller::run;
use hp_samples::first_difference;
use std::test::*;

/// A journal of three events.
const THREE: &str = "cpuhp journal 2\ncpus 1\nabsent -\nevents\nadmit 0 ap 0\nadmit 1 client\n\
    shown 1 1 state 0 200\nend 3\n";

/// The words, what is read, and what is to come of it.
#[derive(Clone, Copy)]
struct Row {
    words: &'static [&'static str],
    input: &'static str,
    status: u8,
    output: &'static str,
}

/// Words that are none of the program's.
const USAGE: Row = Row {
    words: &["--help"],
    input: THREE,
    status: 1,
    output: "usage: hpview [--from N] [--to M]\n",
};

/// A window that three events don't have.
const NO_WINDOW: Row = Row {
    words: &["--from", "0"],
    input: THREE,
    status: 2,
    output: "error: 3 events: choose a window of at most 20000 with --from and --to\n",
};

/// A journal that is refused.
const BAD_JOURNAL: Row = Row {
    words: &[],
    input: "",
    status: 6,
    output: "error: line 1: missing\n",
};

const ROWS: [Row; 16] = [
    USAGE,
    Row {
        words: &["--from"],
        ..USAGE
    },
    Row {
        words: &["--from", "01"],
        ..USAGE
    },
    Row {
        words: &["--from", "1", "--from", "2"],
        ..USAGE
    },
    Row {
        words: &["--to=x"],
        ..USAGE
    },
    Row {
        words: &["--", "--from", "1"],
        ..USAGE
    },
    Row {
        words: &["3"],
        ..USAGE
    },
    NO_WINDOW,
    Row {
        words: &["--from=3", "--to=2"],
        ..NO_WINDOW
    },
    Row {
        words: &["--from", "4"],
        ..NO_WINDOW
    },
    Row {
        words: &["--to", "4"],
        ..NO_WINDOW
    },
    Row {
        words: &["--to", "0"],
        ..NO_WINDOW
    },
    Row {
        words: &["--to", "18446744073709551615"],
        ..NO_WINDOW
    },
    BAD_JOURNAL,
    Row {
        input: "cpuhp journal 1\n",
        output: "error: line 1: header\n",
        ..BAD_JOURNAL
    },
    Row {
        input: "cpuhp journal 2\ncpus 1\nabsent -\nevents\nadmit 1 client\n",
        output: "error: line 5: unlawful\n",
        ..BAD_JOURNAL
    },
];

#[test]
fn others_are_refused(rt: HostRuntime) -> Result<(), Fail> {
    for row in ROWS.iter() {
        let ran = run(rt.alloc(), row.words, row.input, (None, None))?;
        let (words, output) = (row.words, row.output);
        assert!(rt; ran.status == row.status, "row {words:?}, {output}");
        let line = first_difference(&ran.written, output.as_bytes());
        assert!(rt; line == None, "row {words:?}, {output}: line {line:?}");
    }
    Ok(())
}

//! Pictures, line by line. The lines were worked out by hand from what docs/PICTURE.md and the definitions say.

use crate::caller::run;
use hp_samples::first_difference;
use std::test::*;

/// The words, the journal, and a text that its picture begins with and one that it ends with.
struct Row {
    name: &'static str,
    words: &'static [&'static str],
    journal: &'static str,
    first: &'static str,
    last: &'static str,
}

/// A walk that is turned back at 160, and one that ends well.
const ROLLBACK: &str = "cpuhp journal 2\n\
    cpus 2\n\
    absent -\n\
    sub mm:pages both single\n\
    sub net:rx both single\n\
    sub net:tx both single\n\
    rule up 1 * 1 12\n\
    events\n\
    admit 0 ap 0\n\
    admit 1 ap 1\n\
    admit 2 client\n\
    reg 2 1 20 setup 20 1\n\
    call 2 0 20 0 up ok\n\
    regged 2 1 ok 0\n\
    reg 2 2 130 setup 130 2\n\
    call 0 0 130 0 up ok\n\
    regged 2 2 ok 0\n\
    reg 2 3 160 setup 160 3\n\
    call 0 0 160 0 up ok\n\
    regged 2 3 ok 0\n\
    enter 2 4 up 1\n\
    walk 2 1 0 200\n\
    call 2 1 20 0 up ok\n\
    call 1 1 130 0 up ok\n\
    call 1 1 160 0 up fault 12\n\
    call 1 1 130 0 down ok\n\
    call 2 1 20 0 down ok\n\
    walked 2 1 fault 12\n\
    done 2 4 fault 12\n\
    enter 2 5 up 1\n\
    walk 2 1 0 200\n\
    call 2 1 20 0 up ok\n\
    call 1 1 130 0 up ok\n\
    call 1 1 160 0 up ok\n\
    walked 2 1 ok\n\
    done 2 5 ok 0\n\
    end 28\n";

/// A registration of an instance, a read section and an upmany, beside an absent processor.
const MANY_KINDS: &str = "cpuhp journal 2\n\
    cpus 3\n\
    absent 1\n\
    sub blk:queue both multi\n\
    events\n\
    admit 0 ap 0\n\
    admit 1 ap 2\n\
    admit 2 client\n\
    reg 2 1 160 setup 160 1\n\
    regged 2 1 ok 0\n\
    reg 2 2 160 add 160 7\n\
    call 0 0 160 7 up ok\n\
    regged 2 2 ok 0\n\
    lock 2 3\n\
    unlock 2 4\n\
    enter 2 5 upmany 2\n\
    walk 2 2 0 200\n\
    call 1 2 160 7 up ok\n\
    walked 2 2 ok\n\
    done 2 5 ok 0\n\
    end 15\n";

const ROWS: [Row; 4] = [
    Row {
        name: "no events",
        words: &[],
        journal: "cpuhp journal 2\ncpus 1\nabsent -\nevents\nend 0\n",
        first: "<svg xmlns='http://www.w3.org/2000/svg' width='900' height='170' viewBox='0 0 2700 510' ",
        last: "<text x='450' y='60' font-size='42' font-weight='bold'>processors: 1, events: none of 0</text>
<path class='ok' d='M450 108m0-12l12 24h-24z'/><text x='474' y='120'>startup</text>\
<path class='ok' d='M660 108m0 12l12-24h-24z'/><text x='684' y='120'>teardown</text>\
<path class='fault' d='M900 108m0-12l12 24h-24z'/><text x='924' y='120'>fault</text>\
<path class='overruled' d='M1050 108m0-12l12 24h-24z'/><text x='1074' y='120'>overruled</text>\
<path class='injected' d='M1290 108m0-12l12 24h-24z'/><text x='1314' y='120'>injected</text>\
<path class='empty' d='M1500 108m0-12l12 24h-24z'/><text x='1524' y='120'>not called</text>\
<path class='bar ok' d='M1725 93h36v30h-36z'/><text x='1773' y='120'>ok</text>\
<path class='bar fault' d='M1845 93h36v30h-36z'/><text x='1893' y='120'>fault</text>\
<path class='bar stuck' d='M1995 93h36v30h-36z'/><text x='2043' y='120'>stuck</text>\
<path class='bar refused' d='M2160 93h36v30h-36z'/><text x='2208' y='120'>refused</text>\
<path class='bar going' d='M2355 93h36v30h-36z'/><text x='2403' y='120'>in flight</text>\
<path class='bar full' d='M2565 93h36v30h-36z'/><text x='2613' y='120'>full</text>
<g transform='translate(0 180)'><path class='box' d='M450 0h0v220H450z'/>\
<path class='half' d='M450 109h0'/><text class='end' x='348' y='120'>cpu 0</text>\
<text class='small' x='372' y='21'>200</text><text class='small' x='372' y='119'>101</text>\
<text class='small' x='402' y='217'>0</text></g>
<path class='track' d='M450 190H450'/>
</svg>
",
    },
    Row {
        name: "an instance, a read section, an upmany and an absent processor",
        words: &[],
        journal: MANY_KINDS,
        first: "<svg xmlns='http://www.w3.org/2000/svg' width='900' height='370' viewBox='0 0 2700 1110' ",
        last: "<g transform='translate(0 420)'><path class='box' d='M450 0h540v220H450z'/>\
<path class='half' d='M450 109h540'/><text class='end' x='348' y='120'>cpu 1</text>\
<text class='small' x='372' y='21'>200</text><text class='small' x='372' y='119'>101</text>\
<text class='small' x='402' y='217'>0</text><text class='small' x='474' y='120'>absent</text></g>
<g transform='translate(0 660)'><path class='box' d='M450 0h540v220H450z'/>\
<path class='half' d='M450 109h540'/><text class='end' x='348' y='120'>cpu 2</text>\
<text class='small' x='372' y='21'>200</text><text class='small' x='372' y='119'>101</text>\
<text class='small' x='402' y='217'>0</text></g>
<text class='end' x='348' y='963'>seat 2</text>
<svg x='561' y='912' width='66' height='78'><title>4: reg 2 1 160 setup 160 1
5: regged 2 1 ok 0
</title><rect class='bar ok' width='100%' height='100%'/><text x='9' y='51'> setup 160 1</text></svg>
<svg x='633' y='912' width='102' height='78'><title>6: reg 2 2 160 add 160 7
8: regged 2 2 ok 0
</title><rect class='bar ok' width='100%' height='100%'/><text x='9' y='51'> add 160 7</text></svg>
<svg x='741' y='993' width='66' height='18'><title>9: lock 2 3
10: unlock 2 4
</title><rect class='section ok' width='100%' height='100%'/></svg>
<svg x='849' y='660' width='102' height='220'><title>12: walk 2 2 0 200
14: walked 2 2 ok
</title><rect class='walk ok' width='100%' height='100%'/></svg>
<svg x='813' y='912' width='174' height='78'><title>11: enter 2 5 upmany 2
15: done 2 5 ok 0
</title><rect class='bar ok' width='100%' height='100%'/><text x='9' y='51'> upmany 2</text></svg>
<path class='track' d='M450 190H990'/>
<path class='track' d='M450 630H990'/>
<path class='track' d='M450 870H900V710H936V670H990'/>
<path d='M684 230m0-12l12 24h-24z' class='ok'><title>7: call 0 0 160 7 up ok
</title></path>
<path d='M900 710m0-12l12 24h-24z' class='ok'><title>13: call 1 2 160 7 up ok
</title></path>
</svg>
",
    },
    Row {
        name: "one operation",
        words: &[],
        journal: "cpuhp journal 2\ncpus 1\nabsent -\nevents\nadmit 0 ap 0\nadmit 1 client\nshown 1 1 state 0 200\nend 3\n",
        first: "<svg xmlns='http://www.w3.org/2000/svg' width='900' height='210' viewBox='0 0 2700 630' ",
        last: "<g transform='translate(0 180)'><path class='box' d='M450 0h108v220H450z'/>\
<path class='half' d='M450 109h108'/><text class='end' x='348' y='120'>cpu 0</text>\
<text class='small' x='372' y='21'>200</text><text class='small' x='372' y='119'>101</text>\
<text class='small' x='402' y='217'>0</text></g>
<text class='end' x='348' y='483'>seat 1</text>
<svg x='525' y='432' width='30' height='78'><title>3: shown 1 1 state 0 200
</title><rect class='bar ok' width='100%' height='100%'/></svg>
<path class='track' d='M450 190H558'/>
</svg>
",
    },
    Row {
        name: "two events of a rollback",
        words: &["--from", "17", "--to=18"],
        journal: ROLLBACK,
        first: "<svg xmlns='http://www.w3.org/2000/svg' width='900' height='290' viewBox='0 0 2700 870' ",
        last: "<text class='end' x='348' y='723'>seat 2</text>
<svg x='453' y='420' width='66' height='220'><title>14: walk 2 1 0 200
</title><rect class='walk going' width='100%' height='100%'/></svg>
<svg x='453' y='672' width='66' height='78'><title>13: enter 2 4 up 1
</title><rect class='bar going' width='100%' height='100%'/><text x='9' y='51'> up 1</text></svg>
<path class='track' d='M450 190H522'/>
<path class='track' d='M450 500H504V501H522'/>
<path d='M468 470m0-12l12 24h-24z' class='fault'><title>17: call 1 1 160 0 up fault 12
</title></path>
<path d='M504 500m0 12l12-24h-24z' class='ok'><title>18: call 1 1 130 0 down ok
</title></path>
</svg>
",
    },
];

#[test]
fn pictures_come_out_as_worked(rt: HostRuntime) -> Result<(), Fail> {
    for row in ROWS.iter() {
        let name = row.name;
        let ran = run(rt.alloc(), row.words, row.journal, (None, None))?;
        assert!(rt; ran.status == 0, "row {name}");
        assert!(rt;
            ran.written.starts_with(row.first.as_bytes()),
            "row {name}: another size"
        );
        let last = row.last.as_bytes();
        assert!(rt; ran.written.len() >= last.len(), "row {name}: too short");
        let found = first_difference(&ran.written[ran.written.len() - last.len()..], last);
        assert!(rt; found == None, "row {name}: line {found:?} of the end");
    }
    Ok(())
}

//! A freeze and a thaw.

use crate::sample::Sample;

/// A registration between two walks of a freeze that fails.
pub const FREEZE_WITH_SETUP_BETWEEN: Sample = Sample {
    name: "freeze with setup between",
    script: "\
cpus 4
sub net:a both single
rule down 2 * * 6
sub net:b both single
schedule turns 4 0 4 4 4 1 4 4 2 4 4 3 4 4 4 4 1 4 5 0 2 3 5
actor a
setup 150 1
boot 4
freeze 0
up 1
thaw
actor b
setup 160 2
",
    journal: "\
cpuhp journal 2
cpus 4
absent -
sub net:a both single
rule down 2 * * 6
sub net:b both single
events
admit 0 ap 0
admit 1 ap 1
admit 2 ap 2
admit 3 ap 3
admit 4 client
admit 5 client
reg 4 1 150 setup 150 1
call 0 0 150 0 up ok
regged 4 1 ok 0
enter 4 2 boot 4
walk 4 1 0 200
call 1 1 150 0 up ok
walked 4 1 ok
walk 4 2 0 200
call 2 2 150 0 up ok
walked 4 2 ok
walk 4 3 0 200
call 3 3 150 0 up ok
walked 4 3 ok
done 4 2 ok 0
enter 4 3 freeze 0
walk 4 1 200 0
call 1 1 150 0 down ok
walked 4 1 ok
reg 5 1 160 setup 160 2
call 0 0 160 0 up ok
call 2 2 160 0 up ok
call 3 3 160 0 up ok
regged 5 1 ok 0
walk 4 2 200 0
call 2 2 160 0 down ok
call 2 2 150 0 down fault 6
call 2 2 160 0 up ok
walked 4 2 fault 6
done 4 3 fault 6
refused 4 4 16 up 1
enter 4 5 thaw
walk 4 1 0 200
call 1 1 150 0 up ok
call 1 1 160 0 up ok
walked 4 1 ok
done 4 5 ok 0
end 42
",
    summary: "\
cpu 0 present state 200 keys 150.0 160.0
cpu 1 present state 200 keys 150.0 160.0
cpu 2 present state 200 keys 150.0 160.0
cpu 3 present state 200 keys 150.0 160.0
disabled 0
frozen -
sub 150 net:a made 7 faults 1 instances -
sub 160 net:b made 6 faults 0 instances -
ops ok 4 refused 1 fault 1 stuck 0 full 0
events 42
",
};

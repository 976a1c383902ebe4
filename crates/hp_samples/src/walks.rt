//! Walks of one processor.

use crate::sample::Sample;

/// Two states are set up, and a processor comes up: both startups in order.
pub const TWO_STARTUPS: Sample = Sample {
    name: "two startups",
    script: "\
cpus 2
sub net:a both single
sub net:b both single
actor a
setup 120 1
setup 150 2
up 1
",
    journal: "\
cpuhp journal 2
cpus 2
absent -
sub net:a both single
sub net:b both single
events
admit 0 ap 0
admit 1 ap 1
admit 2 client
reg 2 1 120 setup 120 1
call 0 0 120 0 up ok
regged 2 1 ok 0
reg 2 2 150 setup 150 2
call 0 0 150 0 up ok
regged 2 2 ok 0
enter 2 3 up 1
walk 2 1 0 200
call 1 1 120 0 up ok
call 1 1 150 0 up ok
walked 2 1 ok
done 2 3 ok 0
end 15
",
    summary: "\
cpu 0 present state 200 keys 120.0 150.0
cpu 1 present state 200 keys 120.0 150.0
disabled 0
frozen -
sub 120 net:a made 2 faults 0 instances -
sub 150 net:b made 2 faults 0 instances -
ops ok 3 refused 0 fault 0 stuck 0 full 0
events 15
",
};

/// A callback faults in the rollback: the processor stays between.
pub const STUCK: Sample = Sample {
    name: "stuck",
    script: "\
cpus 2
sub net:a both single
rule down 1 * * 7
sub net:b both single
rule up 1 * 2 9
sub net:c both single
actor a
setup 120 1
setup 150 2
setup 180 3
up 1
down 1
",
    journal: "\
cpuhp journal 2
cpus 2
absent -
sub net:a both single
rule down 1 * * 7
sub net:b both single
rule up 1 * 2 9
sub net:c both single
events
admit 0 ap 0
admit 1 ap 1
admit 2 client
reg 2 1 120 setup 120 1
call 0 0 120 0 up ok
regged 2 1 ok 0
reg 2 2 150 setup 150 2
call 0 0 150 0 up ok
regged 2 2 ok 0
reg 2 3 180 setup 180 3
call 0 0 180 0 up ok
regged 2 3 ok 0
enter 2 4 up 1
walk 2 1 0 200
call 1 1 120 0 up ok
call 1 1 150 0 up ok
call 1 1 180 0 up ok
walked 2 1 ok
done 2 4 ok 0
enter 2 5 down 1
walk 2 1 200 0
call 1 1 180 0 down ok
call 1 1 150 0 down ok
call 1 1 120 0 down fault 7
call 1 1 150 0 up fault 9
walked 2 1 stuck 7 9 149
done 2 5 stuck 7 9 149
end 27
",
    summary: "\
cpu 0 present state 200 keys 120.0 150.0 180.0
cpu 1 present state 149 keys 120.0
disabled 0
frozen -
sub 120 net:a made 3 faults 1 instances -
sub 150 net:b made 4 faults 1 instances -
sub 180 net:c made 3 faults 0 instances -
ops ok 4 refused 0 fault 0 stuck 1 full 0
events 27
",
};

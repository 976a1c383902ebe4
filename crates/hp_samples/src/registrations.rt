//! Instances.

use crate::sample::Sample;

/// The third instance of a state faults: the earlier two are undone.
pub const INSTANCE_FAULT: Sample = Sample {
    name: "instance fault",
    script: "\
cpus 2
sub net:q both multi
rule up 1 1 * 5
actor a
setup 150 1
add 150 1
add 150 2
add 150 3
up 1
",
    journal: "\
cpuhp journal 2
cpus 2
absent -
sub net:q both multi
rule up 1 1 * 5
events
admit 0 ap 0
admit 1 ap 1
admit 2 client
reg 2 1 150 setup 150 1
regged 2 1 ok 0
reg 2 2 150 add 150 1
call 0 0 150 1 up ok
regged 2 2 ok 0
reg 2 3 150 add 150 2
call 0 0 150 2 up ok
regged 2 3 ok 0
reg 2 4 150 add 150 3
call 0 0 150 3 up ok
regged 2 4 ok 0
enter 2 5 up 1
walk 2 1 0 200
call 1 1 150 3 up ok
call 1 1 150 2 up ok
call 1 1 150 1 up fault 5
call 1 1 150 3 down ok
call 1 1 150 2 down ok
walked 2 1 fault 5
done 2 5 fault 5
end 23
",
    summary: "\
cpu 0 present state 200 keys 150.1 150.2 150.3
cpu 1 present state 0 keys -
disabled 0
frozen -
sub 150 net:q made 8 faults 1 instances 3 2 1
ops ok 4 refused 0 fault 1 stuck 0 full 0
events 23
",
};

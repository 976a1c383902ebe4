//! A long run of several actors.

use crate::sample::Sample;

/// One actor sets up twelve subsystems and adds two instances, while five others bring eight processors up,
/// two of them with a read section between two ways up.
pub const TWELVE_SUBSYSTEMS: Sample = Sample {
    name: "twelve subsystems",
    script: "\
cpus 8
sub wq:prep both single
sub timer:prep both single
sub net:prep up single
sub irq:poll down single
sub ap:timer both single
sub ap:perf both single
sub blk:mq both multi
sub net:rx both single
sub mm:stat both single
sub blk:soft both single
sub power both single
sub lib:cnt both single
schedule mix 42 500
actor a1
setup 20 1
setup 30 2
setup 41 3
setup 35 4
setup 70 5
setup 80 6
setup 141 7
setup 141 8
setup 141 9
setup 150 10
setup 180 11
setup 110 12
add 141 1
add 141 2
actor a2
up 1
lock
show state 1
unlock
up 6
actor a3
up 2
lock
unlock
up 7
actor a4
up 3
actor a5
up 4
actor a6
up 5
",
    journal: "\
cpuhp journal 2
cpus 8
absent -
sub wq:prep both single
sub timer:prep both single
sub net:prep up single
sub irq:poll down single
sub ap:timer both single
sub ap:perf both single
sub blk:mq both multi
sub net:rx both single
sub mm:stat both single
sub blk:soft both single
sub power both single
sub lib:cnt both single
events
admit 0 ap 0
admit 1 ap 1
admit 2 ap 2
admit 3 ap 3
admit 4 ap 4
admit 5 ap 5
admit 6 ap 6
admit 7 ap 7
admit 8 client
admit 9 client
admit 10 client
admit 11 client
admit 12 client
admit 13 client
reg 8 1 20 setup 20 1
enter 9 1 up 1
call 8 0 20 0 up ok
regged 8 1 ok 0
walk 9 1 0 200
call 9 1 20 0 up ok
walked 9 1 ok
reg 8 2 30 setup 30 2
done 9 1 ok 0
enter 10 1 up 2
call 8 0 30 0 up ok
lock 9 2
call 8 1 30 0 up ok
regged 8 2 ok 0
reg 8 3 41 setup 41 3
shown 9 3 state 1 200
call 8 0 41 0 up ok
call 8 1 41 0 up ok
unlock 9 4
regged 8 3 ok 41
reg 8 4 35 setup 35 4
call 8 0 35 0 up empty
call 8 1 35 0 up empty
regged 8 4 ok 0
reg 8 5 70 setup 70 5
call 0 0 70 0 up ok
call 1 1 70 0 up ok
regged 8 5 ok 0
walk 10 2 0 200
call 10 2 20 0 up ok
call 10 2 30 0 up ok
call 10 2 35 0 up empty
call 10 2 41 0 up ok
call 2 2 70 0 up ok
walked 10 2 ok
reg 8 6 80 setup 80 6
done 10 1 ok 0
call 0 0 80 0 up ok
enter 13 1 up 5
lock 10 2
unlock 10 3
call 1 1 80 0 up ok
call 2 2 80 0 up ok
regged 8 6 ok 0
reg 8 7 141 setup 141 7
regged 8 7 ok 141
reg 8 8 142 setup 141 8
call 0 0 142 0 up ok
call 1 1 142 0 up ok
call 2 2 142 0 up ok
regged 8 8 ok 142
walk 13 5 0 200
call 13 5 20 0 up ok
call 13 5 30 0 up ok
call 13 5 35 0 up empty
call 13 5 41 0 up ok
call 5 5 70 0 up ok
call 5 5 80 0 up ok
call 5 5 142 0 up ok
walked 13 5 ok
reg 8 9 143 setup 141 9
done 13 1 ok 0
call 0 0 143 0 up ok
call 1 1 143 0 up ok
call 2 2 143 0 up ok
call 5 5 143 0 up ok
regged 8 9 ok 143
enter 9 5 up 6
reg 8 10 150 setup 150 10
call 0 0 150 0 up ok
call 1 1 150 0 up ok
call 2 2 150 0 up ok
call 5 5 150 0 up ok
regged 8 10 ok 0
walk 9 6 0 200
call 9 6 20 0 up ok
call 9 6 30 0 up ok
call 9 6 35 0 up empty
call 9 6 41 0 up ok
call 6 6 70 0 up ok
call 6 6 80 0 up ok
call 6 6 142 0 up ok
call 6 6 143 0 up ok
call 6 6 150 0 up ok
walked 9 6 ok
reg 8 11 180 setup 180 11
done 9 5 ok 0
enter 10 4 up 7
call 0 0 180 0 up ok
call 1 1 180 0 up ok
call 2 2 180 0 up ok
call 5 5 180 0 up ok
call 6 6 180 0 up ok
regged 8 11 ok 0
walk 10 7 0 200
call 10 7 20 0 up ok
call 10 7 30 0 up ok
call 10 7 35 0 up empty
call 10 7 41 0 up ok
call 7 7 70 0 up ok
call 7 7 80 0 up ok
call 7 7 142 0 up ok
call 7 7 143 0 up ok
call 7 7 150 0 up ok
call 7 7 180 0 up ok
walked 10 7 ok
reg 8 12 110 setup 110 12
done 10 4 ok 0
enter 11 1 up 3
call 0 0 110 0 up ok
call 1 1 110 0 up ok
call 2 2 110 0 up ok
call 5 5 110 0 up ok
call 6 6 110 0 up ok
call 7 7 110 0 up ok
regged 8 12 ok 0
walk 11 3 0 200
call 11 3 20 0 up ok
call 11 3 30 0 up ok
call 11 3 35 0 up empty
call 11 3 41 0 up ok
call 3 3 70 0 up ok
call 3 3 80 0 up ok
call 3 3 110 0 up ok
call 3 3 142 0 up ok
call 3 3 143 0 up ok
call 3 3 150 0 up ok
call 3 3 180 0 up ok
walked 11 3 ok
reg 8 13 141 add 141 1
done 11 1 ok 0
enter 12 1 up 4
call 0 0 141 1 up ok
call 1 1 141 1 up ok
call 2 2 141 1 up ok
call 3 3 141 1 up ok
call 5 5 141 1 up ok
call 6 6 141 1 up ok
call 7 7 141 1 up ok
regged 8 13 ok 0
walk 12 4 0 200
call 12 4 20 0 up ok
call 12 4 30 0 up ok
call 12 4 35 0 up empty
call 12 4 41 0 up ok
call 4 4 70 0 up ok
call 4 4 80 0 up ok
call 4 4 110 0 up ok
call 4 4 141 1 up ok
call 4 4 142 0 up ok
call 4 4 143 0 up ok
call 4 4 150 0 up ok
call 4 4 180 0 up ok
walked 12 4 ok
reg 8 14 141 add 141 2
done 12 1 ok 0
call 0 0 141 2 up ok
call 1 1 141 2 up ok
call 2 2 141 2 up ok
call 3 3 141 2 up ok
call 4 4 141 2 up ok
call 5 5 141 2 up ok
call 6 6 141 2 up ok
call 7 7 141 2 up ok
regged 8 14 ok 0
end 179
",
    summary: "\
cpu 0 present state 200 keys 20.0 30.0 35.0 41.0 70.0 80.0 110.0 141.1 141.2 142.0 143.0 150.0 180.0
cpu 1 present state 200 keys 20.0 30.0 35.0 41.0 70.0 80.0 110.0 141.1 141.2 142.0 143.0 150.0 180.0
cpu 2 present state 200 keys 20.0 30.0 35.0 41.0 70.0 80.0 110.0 141.1 141.2 142.0 143.0 150.0 180.0
cpu 3 present state 200 keys 20.0 30.0 35.0 41.0 70.0 80.0 110.0 141.1 141.2 142.0 143.0 150.0 180.0
cpu 4 present state 200 keys 20.0 30.0 35.0 41.0 70.0 80.0 110.0 141.1 141.2 142.0 143.0 150.0 180.0
cpu 5 present state 200 keys 20.0 30.0 35.0 41.0 70.0 80.0 110.0 141.1 141.2 142.0 143.0 150.0 180.0
cpu 6 present state 200 keys 20.0 30.0 35.0 41.0 70.0 80.0 110.0 141.1 141.2 142.0 143.0 150.0 180.0
cpu 7 present state 200 keys 20.0 30.0 35.0 41.0 70.0 80.0 110.0 141.1 141.2 142.0 143.0 150.0 180.0
disabled 0
frozen -
sub 20 wq:prep made 8 faults 0 instances -
sub 30 timer:prep made 8 faults 0 instances -
sub 35 irq:poll made 0 faults 0 instances -
sub 41 net:prep made 8 faults 0 instances -
sub 70 ap:timer made 8 faults 0 instances -
sub 80 ap:perf made 8 faults 0 instances -
sub 110 lib:cnt made 8 faults 0 instances -
sub 141 blk:mq made 16 faults 0 instances 2 1
sub 142 net:rx made 8 faults 0 instances -
sub 143 mm:stat made 8 faults 0 instances -
sub 150 blk:soft made 8 faults 0 instances -
sub 180 power made 8 faults 0 instances -
ops ok 26 refused 0 fault 0 stuck 0 full 0
events 179
",
};

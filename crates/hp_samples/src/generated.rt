//! Scripts that are generated.

/// What is generated of seed 0 and size 1.
pub const SEED_0_SIZE_1: &str = "\
cpus 8
sub gen:1 both single
sub gen:2 both single
sub gen:3 both single
rule up * * 27 5
sub gen:4 both multi
sub gen:5 both single
sub gen:6 both single
rule up * * 24 5
sub gen:7 both single
sub gen:8 both multi
sub gen:9 both single
rule up * * 37 5
sub gen:10 both single
sub gen:11 both single
sub gen:12 both multi
rule up * * 36 5
schedule mix 0 10000
actor g1
setup 10 1
setup 30 2
setup 41 3
setup 42 4
setup 70 5
setup 80 6
setup 110 7
setup 120 8
setup 141 9
setup 150 10
setup 160 11
setup 180 12
add 180 1
actor g2
show state 0
actor g3
down 7
actor g4
down 6
actor g5
add 42 3
actor g6
up 2
";

/// What is generated of seed 7 and size 2.
pub const SEED_7_SIZE_2: &str = "\
cpus 8
sub gen:1 both single
sub gen:2 both single
sub gen:3 both single
rule up * * 38 5
sub gen:4 both multi
sub gen:5 both single
sub gen:6 both single
rule up * * 31 5
sub gen:7 both single
sub gen:8 both multi
sub gen:9 both single
rule up * * 33 5
sub gen:10 both single
sub gen:11 both single
sub gen:12 both multi
rule up * * 33 5
schedule mix 7 10000
actor g1
setup 10 1
setup 30 2
setup 41 3
setup 42 4
setup 70 5
setup 80 6
setup 110 7
setup 120 8
setup 141 9
setup 150 10
setup 160 11
setup 180 12
up 3
up 4
actor g2
down 6
down 3
actor g3
up 0
add 120 2
actor g4
down 4
show state 0
actor g5
up 6
down 5
actor g6
up 0
up 5
";

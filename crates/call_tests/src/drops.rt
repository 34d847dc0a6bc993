// Runs that take pages out of memory, and what is told of them afterwards. A page is counted once in each line: dropped
// where it says what the newest snapshot says, else kept, as is each page above a kept one.

// One leaf, and the next call over what is kept.
pub(super) const DROPPED: &str = "\
run # array 1 4|0 w 1 2 7|join|k glean|join|k drop|join|0 r 1 2| # 0 # 0.0 ok 1:1|durable 1|k.0 snap 1 new 2|durable 2|\
k.0 drop 1 kept 0|durable 3|0.0 ok 4:2 7|durable 4|
dump # # 0 # epoch 4|1 2 7|
snaps # # 0 # snap 0 at 1|snap 1 at 3|
snap 1 # # 0 # epoch 1|1 2 7|
snap 2 # # 9 # no snapshot 2|
run # array 1 4|0 r 1 2; r 1 0|k drop|join|0 a 1 2 1|k drop # 0 # 0.0 ok 5:1 7 0|k.0 drop 0 kept 0|durable 5|\
0.0 ok 6:2|k.0 drop 0 kept 1|durable 6|
dump # # 0 # epoch 6|1 2 8|
";

// A value that was written since the snapshot, also the same one again, keeps its page.
pub(super) const KEPT: &str = "\
run # array 1 4|0 w 1 2 7|join|k glean|join|0 w 1 0 9|join|k drop # 0 # 0.0 ok 1:1|durable 1|k.0 snap 1 new 2|\
durable 2|0.0 ok 3:2|durable 3|k.0 drop 0 kept 1|durable 4|
dump # # 0 # epoch 4|1 0 9|1 2 7|
snaps # # 0 # snap 0 at 1|snap 1 at 3|
snap 1 # # 0 # epoch 1|1 2 7|
run # array 1 4|0 w 1 2 7|k drop|k drop|join|k glean|0 r 1 0; r 1 2|k drop # 0 # 0.0 ok 5:1|k.0 drop 0 kept 1|\
k.1 drop 0 kept 1|durable 5|0.0 ok 6:2 9 7|k.0 snap 5 new 2|k.1 drop 1 kept 0|durable 6|
dump # # 0 # epoch 6|1 0 9|1 2 7|
";

// A line that ends short leaves its page in memory, as it was. There is no page of the first snapshot to compare with,
// and none is made where there is no room.
pub(super) const WITHOUT_A_SNAPSHOT: &str = "\
run --snap 2 # array 1 4|k drop|0 w 1 0 5; t 1 0 6|join|0 w 1 0 5; r 1 3|k drop|join|k glean|k drop|0 r 1 0 # 0 # \
0.0 short 1:1|k.0 drop 1 kept 0|durable 1|0.0 ok 2:2 0|k.0 drop 0 kept 1|durable 2|0.0 ok 3:3 5|k.0 snap-full|\
k.1 drop 0 kept 1|durable 3|
";

// A page above a kept one is kept, and met again by the next line; the leaf below it that was dropped is not.
pub(super) const OF_TWO_LEVELS: &str = "\
run # array 1 160|0 w 1 0 1; w 1 32 2|join|0 a 1 32 1|k glean|k drop|join|0 r 1 0; r 1 32; r 1 159|k drop|k glean|k drop|\
join|0 r 1 0; r 1 32; r 1 64|1 a 1 0 1; a 1 159 5|k drop # 0 # 0.0 ok 1:1|durable 1|0.0 ok 2:2|k.0 snap 1 new 4|\
k.1 drop 1 kept 2|durable 2|0.0 ok 3:3 1 3 0|k.0 drop 0 kept 2|k.1 snap 2 new 3|k.2 drop 2 kept 0|durable 3|\
0.0 ok 4:4 1 3 0|1.0 ok 4:5|k.0 drop 0 kept 3|durable 4|
dump # # 0 # epoch 4|1 0 2|1 32 3|1 159 5|
snap 1 # # 0 # epoch 1|1 0 1|1 32 2|
snap 2 # # 0 # epoch 2|1 0 1|1 32 3|
";

// Three levels: two leaves, the page above each, and that above both.
pub(super) const OF_THREE_LEVELS: &str = "\
run # array 1 131072|0 w 1 0 1; w 1 131071 2|join|k glean|k drop|join|0 a 1 131071 1|k drop|join|k glean|k drop|\
0 r 1 131071; r 1 0 # 0 # 0.0 ok 1:1|durable 1|k.0 snap 1 new 6|k.1 drop 5 kept 0|durable 2|0.0 ok 3:2|\
k.0 drop 0 kept 3|durable 3|0.0 ok 4:3 3 1|k.0 snap 3 new 4|k.1 drop 3 kept 0|durable 4|
dump # # 0 # epoch 4|1 0 1|1 131071 3|
";

// Arrays of each height, whose pages are met in one line; and one beside a tree.
pub(super) const OF_SEVERAL_ARRAYS: &str = "\
run # array 1 1|array 2 2|array 3 32|array 4 33|array 5 2048|array 6 2049|0 w 1 0 1; w 2 1 2; w 3 31 3; w 4 32 4; \
w 5 2047 5; w 6 2048 6|join|k glean|k drop|0 a 3 0 9; a 6 0 9|join|k drop|0 r 1 0; r 2 1; r 3 31; r 4 32; r 5 2047; \
r 6 2048; r 6 0 # 0 # 0.0 ok 1:1|durable 1|0.0 ok 2:2|k.0 snap 1 new 11|k.1 drop 8 kept 4|durable 2|\
0.0 ok 3:3 1 2 3 4 5 6 9|k.0 drop 0 kept 4|durable 3|
";

pub(super) const BESIDE_A_TREE: &str = "\
run # array 1 4|tree 2|0 w 1 2 7; w 2 9 1|k drop|join|k glean|k drop|0 r 1 2 # 0 # 0.0 ok 1:1|k.0 drop 0 kept 2|\
durable 1|0.0 ok 2:2 7|k.0 snap 1 new 3|k.1 drop 2 kept 0|durable 2|
";

// Four slots are the page above the leaves and three of these; those of dropped pages are given again.
pub(super) const GIVEN_AGAIN: &str = "\
run --slots 4 # array 1 160|0 w 1 0 1; w 1 32 2; w 1 64 3|0 w 1 96 4|join|k glean|k drop|join|0 w 1 96 5; w 1 128 6|\
1 r 1 0; r 1 32; r 1 64|join|k glean|k drop|join|0 a 1 0 1; a 1 32 1; a 1 64 1 # 0 # 0.0 ok 1:1|0.1 full|durable 1|\
k.0 snap 1 new 5|k.1 drop 4 kept 0|durable 2|0.0 ok 3:2|1.0 ok 3:3 1 2 3|durable 3|k.0 snap 3 new 4|\
k.1 drop 3 kept 0|durable 4|0.0 ok 5:4|durable 5|
dump # # 0 # epoch 5|1 0 2|1 32 3|1 64 4|1 96 5|1 128 6|
";

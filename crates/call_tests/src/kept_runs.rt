// Calls one after another over one vault: each begins where those before it ended.
pub(super) const AFTER_RUNS_THAT_READ: &str = "\
run # array 1 4|0 r 1 0| # 0 # 0.0 ok 1:1 0|durable 1|
run # array 1 4|0 r 1 2| # 0 # 0.0 ok 2:1 0|durable 2|
run # array 1 4|0 w 1 2 7|1 r 1 2| # 0 # 0.0 ok 3:1|1.0 ok 3:2 7|durable 3|
dump # # 0 # epoch 3|1 2 7|
run # array 1 4|0 r 1 2| # 0 # 0.0 ok 4:1 7|durable 4|
run # array 1 4|0 r 1 2| # 0 # 0.0 ok 5:1 7|durable 5|
dump # # 0 # epoch 5|1 2 7|
";

// The log entries become a snapshot of two pages, a leaf and a catalogue, as the next run begins.
pub(super) const AFTER_A_RUN_THAT_WROTE: &str = "\
run # array 1 4|0 w 1 2 7; r 1 2|0 r 1 0| # 0 # 0.0 ok 1:1 7|0.1 ok 1:2 0|durable 1|
run # array 1 5| # 1 # shape declared 1:5 kept 1:4|
dump # # 0 # epoch 1|1 2 7|
run --snap 2 # array 1 4|0 r 1 2| # 7 # limit snap|
dump # # 0 # epoch 1|1 2 7|
run --snap 3 # array 1 4|0 r 1 2| # 0 # 0.0 ok 2:1 7|durable 2|
dump # # 0 # epoch 2|1 2 7|
run --snap 3 # array 1 4|0 a 1 2 1; w 1 0 9| # 0 # 0.0 ok 3:1|durable 3|
run --snap 4 # array 1 4|0 r 1 2| # 7 # limit snap|
run --snap 5 # array 1 4|0 r 1 2; r 1 0| # 0 # 0.0 ok 4:1 8 9|durable 4|
dump # # 0 # epoch 4|1 0 9|1 2 8|
";

// Seventeen keys of a tree become two leaves, an interior page and a catalogue.
pub(super) const AFTER_A_RUN_OVER_A_TREE: &str = "\
run # tree 2|0 w 2 1 1; w 2 2 2; w 2 3 3; w 2 4 4; w 2 5 5; w 2 6 6; w 2 7 7; w 2 8 8; w 2 9 9; w 2 10 10; w 2 11 11; \
w 2 12 12; w 2 13 13; w 2 14 14; w 2 15 15; w 2 16 16|0 w 2 17 0| # 0 # 0.0 ok 1:1|0.1 ok 1:2|durable 1|
run --snap 4 # tree 2| # 7 # limit snap|
run --snap 5 # tree 2|0 s 2 9 11; r 2 17; d 2 9; s 2 8 10| # 0 # 0.0 ok 2:1 9=9,10=10,11=11 0 8=8,10=10|durable 2|
run # tree 2|0 s 2 8 10; s 2 16 99| # 0 # 0.0 ok 3:1 8=8,10=10 16=16,17=0|durable 3|
";

pub(super) const OTHER_STORAGES: &str = "\
run # tree 3|array 1 4|0 r 3 5; r 1 0| # 0 # 0.0 ok 1:1 - 0|durable 1|
run # array 1 4|tree 3|0 s 3 0 9| # 0 # 0.0 ok 2:1 .|durable 2|
run # array 1 4| # 1 # shape declared 1:4 kept 1:4,3:t|
run # array 2 4|array 1 4|tree 3| # 1 # shape declared 1:4,2:4,3:t kept 1:4,3:t|
run # array 3 4|tree 1| # 1 # shape declared 1:t,3:4 kept 1:4,3:t|
run # # 1 # shape declared . kept 1:4,3:t|
run # array 1 5|0 r 1 5| # 1 # script 2 Range|
dump # # 0 # epoch 2|
";

pub(super) const NO_STORAGES: &str = "\
run # # 0 # durable 1|
run # k save|join|k epoch| # 0 # k.0 save 1|durable 2|k.0 epoch 4|durable 4|
run # tree 9| # 1 # shape declared 9:t kept .|
dump # # 0 # epoch 4|
";

// Commits that change nothing leave nothing that counts, but a value that is set to itself does.
pub(super) const NOTHING_CHANGED: &str = "\
run # array 1 4|tree 2|0 t 1 0 5|1 d 2 9| # 0 # 0.0 short 1:1|1.0 ok 1:2|durable 1|
run # array 1 4|tree 2|0 w 1 0 0| # 0 # 0.0 ok 2:1|durable 2|
run --snap 1 # array 1 4|tree 2| # 7 # limit snap|
run # array 1 4|tree 2| # 0 # durable 3|
dump # # 0 # epoch 3|
";

pub(super) const NEAR_THE_LAST_EPOCH: &str = "\
run # array 1 4|0 r 1 0| # 7 # 0.0 ok 1048574:1 0|limit epoch|
dump # # 0 # epoch 1048573|
run # array 1 4|k epoch|k save|k epoch| # 7 # k.0 limit|k.1 save 1048573|k.2 limit|limit epoch|
run # array 1 4|0 w 1 0 1|k save|join|0 r 1 0| # 7 # 0.0 ok 1048574:1|k.0 save 1048573|limit epoch|
dump # # 0 # epoch 1048573|
run # array 1 4|0 r 1 0| # 7 # 0.0 ok 1048574:1 0|limit epoch|
";

pub(super) const AT_THE_LAST_SEQUENCE: &str = "\
run # array 1 4|0 w 1 2 9|k save|k save|k epoch| # 7 # 0.0 ok 2:1|k.0 limit|k.1 limit|k.2 epoch 3|limit sequence|
dump # # 0 # epoch 1|
run # array 1 4|0 r 1 2|join|0 r 1 2| # 7 # 0.0 ok 2:1 0|limit sequence|
";

pub(super) const NO_SEQUENCE_FOR_A_SNAPSHOT: &str = "\
run --snap 2 # array 1 4|0 r 1 0| # 7 # limit snap|
run # array 1 4|0 r 1 0| # 7 # limit sequence|
dump # # 0 # epoch 1|1 2 7|
";

pub(super) const NO_SEQUENCE_FOR_SETTLING: &str = "\
run # array 1 5| # 1 # shape declared 1:5 kept 1:4|
run # array 1 4|0 r 1 0| # 7 # limit sequence|
dump # # 0 # epoch 0|
";

pub(super) const MORE_PAGES_THAN_ARE_LET_IN: &str = "\
run --snap 2 # array 1 4|0 r 1 2| # 7 # limit snap|
run --snap 3 # array 1 4|0 r 1 2; a 1 2 1; r 1 2| # 0 # 0.0 ok 2:1 5 6|durable 2|
dump # # 0 # epoch 2|1 2 6|
run --snap 4 # array 1 4| # 7 # limit snap|
run --snap 5 # array 1 4|0 r 1 2| # 0 # 0.0 ok 3:1 6|durable 3|
";

pub(super) const DAMAGED: &str = "\
run # walk| # 1 # script 1 Word|
run # array 1 5| # 6 # damaged bank0 40|
";

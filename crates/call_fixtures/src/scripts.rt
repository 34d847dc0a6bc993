// Scripts with their texts, as rows.

/// Each row is a call over a new vault.
pub const CASES: &str = "\
run # array 1 4|0 w 1 2 7; r 1 2|0 r 1 0| # 0 # 0.0 ok 1:1 7|0.1 ok 1:2 0|durable 1|
run #  # 0 # durable 1|
run # array 1 131072|0 w 1 131071 5|0 w 1 131072 5| # 1 # script 3 Range|
run # array 1 4|0 t 1 0 5| # 0 # 0.0 short 1:1|durable 1|
run # array 1 4|0 w 1 0 18446744073709551615; a 1 0 1|0 r 1 0| # 0 # 0.0 over 1:1|0.1 ok 1:2 0|durable 1|
run # array 1 4|0 w 1 0 1|join|0 r 1 0| # 0 # 0.0 ok 1:1|durable 1|0.0 ok 2:2 1|durable 2|
run # array 1 4|join||join # 0 # durable 1|durable 2|
run # array 1 4|k epoch|k save| # 0 # k.0 epoch 2|k.1 save 1|durable 2|
run # k epoch|k epoch|k save| # 0 # k.0 epoch 2|k.1 epoch 3|k.2 save 2|durable 3|
run # array 1 4|0 w 1 0 5|k save|k epoch|join|0 r 1 0| # 0 # 0.0 ok 1:1|k.0 save 0|k.1 epoch 2|durable 2|0.0 ok 3:2 5|\
durable 3|
run # array 9 2|3 w 9 1 5|0 r 9 1||3 r 9 1; r 9 0 # 0 # 0.0 ok 1:1 0|3.0 ok 1:2|3.1 ok 1:3 5 0|durable 1|
run # tree 2|0 w 2 5 50; w 2 1 10; s 2 0 9| # 0 # 0.0 ok 1:1 1=10,5=50|durable 1|
run # tree 2|0 r 2 3|0 s 2 0 9|0 s 2 9 0| # 0 # 0.0 ok 1:1 -|0.1 ok 1:2 .|0.2 ok 1:3 .|durable 1|
run # tree 2|0 w 2 18446744073709551615 1; r 2 18446744073709551615; d 2 18446744073709551615; r 2 \
18446744073709551615| # 0 # 0.0 ok 1:1 1 -|durable 1|
run # tree 2|0 w 2 1 1|0 w 2 2 2|0 w 2 3 3|0 w 2 4 4|0 w 2 5 5|0 w 2 6 6|0 w 2 7 7|0 w 2 8 8|0 w 2 9 9|0 w 2 10 10|0 \
w 2 11 11|0 w 2 12 12|0 w 2 13 13|0 w 2 14 14|0 w 2 15 15|0 w 2 16 16|0 w 2 17 17|0 s 2 0 99| # 0 # 0.0 ok 1:1|0.1 ok \
1:2|0.2 ok 1:3|0.3 ok 1:4|0.4 ok 1:5|0.5 ok 1:6|0.6 ok 1:7|0.7 ok 1:8|0.8 ok 1:9|0.9 ok 1:10|0.10 ok 1:11|0.11 ok \
1:12|0.12 ok 1:13|0.13 ok 1:14|0.14 ok 1:15|0.15 ok 1:16|0.16 ok 1:17|0.17 ok 1:18 1=1,2=2,3=3,4=4,5=5,6=6,7=7,8=8,\
9=9,10=10,11=11,12=12,13=13,14=14,15=15,16=16|durable 1|
run # tree 2|0 w 2 1 1; w 2 2 2; w 2 3 3; w 2 4 4; w 2 5 5; w 2 6 6; w 2 7 7; w 2 8 8; w 2 9 9; w 2 10 10; w 2 11 11; \
w 2 12 12; w 2 13 13; w 2 14 14; w 2 15 15; w 2 16 16|0 s 2 0 99; w 2 17 17; s 2 0 99; d 2 1; s 2 0 99| # 0 # 0.0 ok \
1:1|0.1 ok 1:2 1=1,2=2,3=3,4=4,5=5,6=6,7=7,8=8,9=9,10=10,11=11,12=12,13=13,14=14,15=15,16=16 1=1,2=2,3=3,4=4,5=5,6=6,\
7=7,8=8,9=9,10=10,11=11,12=12,13=13,14=14,15=15,16=16 2=2,3=3,4=4,5=5,6=6,7=7,8=8,9=9,10=10,11=11,12=12,13=13,14=14,\
15=15,16=16,17=17|durable 1|
run # tree 2|0 w 2 0 1; w 2 18446744073709551615 2; s 2 0 18446744073709551615; s 2 1 18446744073709551614; s 2 0 0; \
s 2 18446744073709551615 18446744073709551615; s 2 18446744073709551615 0; s 2 1 0| # 0 # 0.0 ok 1:1 0=1,\
18446744073709551615=2 . 0=1 18446744073709551615=2 . .|durable 1|
run # tree 2|0 w 2 1 10; w 2 5 50|0 d 2 1; r 2 1; s 2 0 9; w 2 1 7; r 2 1; s 2 1 5; d 2 4|0 s 2 0 9|0 d 2 5; t 2 1 8|\
0 s 2 0 9| # 0 # 0.0 ok 1:1|0.1 ok 1:2 - 5=50 7 1=7,5=50|0.2 ok 1:3 1=7,5=50|0.3 short 1:4|0.4 ok 1:5 1=7,5=50|\
durable 1|
run # array 1 4|tree 2|tree 3|0 w 1 1 7; w 2 1 8; w 3 1 9; a 3 2 5; t 3 4 0|0 d 2 1; r 1 1; r 2 1; r 3 1|join|1 s 2 0 \
9; s 3 0 9; r 1 1; r 1 2| # 0 # 0.0 ok 1:1|0.1 ok 1:2 7 - 9|durable 1|1.0 ok 2:3 . 1=9,2=5,4=0 7 0|durable 2|
run --snap 1 --tries 1000000 # array 1 4|0 r 1 0 # 0 # 0.0 ok 1:1 0|durable 1|
run --slots 4096 # array 1 4|0 r 1 0 # 0 # 0.0 ok 1:1 0|durable 1|
run --slots 4 # array 1 160|0 w 1 0 1|0 w 1 32 1|0 w 1 64 1|0 w 1 96 1| # 0 # 0.0 ok 1:1|0.1 ok 1:2|0.2 ok 1:3|0.3 \
full|durable 1|
run --slots 5 # array 1 160|0 w 1 0 1|0 w 1 32 1|0 w 1 64 1|0 w 1 96 1| # 0 # 0.0 ok 1:1|0.1 ok 1:2|0.2 ok 1:3|0.3 \
ok 1:4|durable 1|
run --slots 4 --brief # array 1 160|0 w 1 0 1|0 w 1 32 1|0 w 1 64 1; w 1 96 1|0 r 1 64| # 0 # commits 3|total 2|\
durable 1|
run --slots 4 # array 1 160|tree 2|0 w 1 0 1|0 w 1 32 1|0 w 2 9 1|0 w 1 64 1; w 2 8 1|0 a 2 9 1; w 2 8 2; s 2 0 9| # 0 # \
0.0 ok 1:1|0.1 ok 1:2|0.2 ok 1:3|0.3 full|0.4 ok 1:4 8=2,9=2|durable 1|
run --tries 1 # tree 2|0 r 2 5; w 2 5 1|0 r 2 5; w 2 5 1|0 s 2 0 9; d 2 5; w 2 6 2; s 2 0 9|0 d 2 6; r 2 6; r 2 7; w 2 7 3; \
r 2 7 # 0 # 0.0 conflict|0.1 ok 1:1 -|0.2 ok 1:2 5=1 6=2|0.3 ok 1:3 - - 3|durable 1|
run # array 1 131072|0 w 1 0 1; a 1 8192 2; w 1 16384 3; w 1 24576 4; w 1 32768 5; w 1 40960 6; w 1 49152 7; \
w 1 57344 8; w 1 65536 9; w 1 73728 10; w 1 81920 11; w 1 90112 12; w 1 98304 13; w 1 106496 14; w 1 114688 15; a 1 122880 16|\
0 r 1 0; r 1 8192; r 1 16384; r 1 24576; r 1 32768; r 1 40960; r 1 49152; r 1 57344; r 1 65536; r 1 73728; r 1 81920; \
r 1 90112; r 1 98304; r 1 106496; r 1 114688; r 1 122880| # 0 # 0.0 ok 1:1|0.1 ok 1:2 1 2 3 4 5 6 7 8 9 10 11 12 13 14 \
15 16|durable 1|
run # array 1 4|0 r 1 0; w 1 0 5| # 0 # 0.0 ok 1:1 0|durable 1|
run --tries 1 # array 1 4|0 r 1 0; w 1 0 5| # 0 # 0.0 conflict|durable 1|
run --slots 3 # array 1 4| # 2 # usage|
run --tries 0 # array 1 4| # 2 # usage|
run --tries 5 --help # array 1 4| # 2 # usage|
make 1 2 2 # # 0 # array 1 1024|tree 2|0 a 1 454 1; a 2 126 1|1 a 1 897 1; a 2 107 1|
run # array 1 1024|tree 2|0 a 1 454 1; a 2 126 1|1 a 1 897 1; a 2 107 1| # 0 # 0.0 ok 1:1|1.0 ok 1:2|durable 1|
make 1 2 0 # # 2 # usage|
make 1 9 2 # # 2 # usage|
make 2147483648 1 1 # # 2 # usage|
make # # 2 # usage|
make -- --help 1 2 # # 2 # usage|
run --brief # array 1 4|0 w 1 2 7; r 1 2|0 r 1 0| # 0 # commits 2|total 7|durable 1|
run --brief #  # 0 # commits 0|total 0|durable 1|
run --brief # array 1 1024|tree 2|0 a 1 454 1; a 2 126 1|1 a 1 897 1; a 2 107 1| # 0 # commits 2|total 4|durable 1|
run --snap 9 --brief # array 1 4|0 w 1 0 5; t 1 0 6|0 w 1 0 18446744073709551615; a 1 0 1|0 w 1 0 3|join|k save|0 a 1 \
1 4| # 0 # commits 4|total 7|durable 2|
run --brief # array 1 4|0 w 1 0 18446744073709551615; w 1 1 18446744073709551615; w 1 2 2| # 0 # commits 1|total \
36893488147419103232|durable 1|
run --brief # walk| # 1 # script 1 Word|
run --brief --brief # array 1 4| # 2 # usage|
walk # array 1 4| # 2 # usage|
--help # array 1 4| # 2 # usage|
 # array 1 4| # 2 # usage|
run # walk| # 1 # script 1 Word|
run # array 1 4|0  r 1 0| # 1 # script 2 Word|
run # array 1 4|0 r 1 0 | # 1 # script 2 Word|
run # array 1 04| # 1 # script 1 Number|
run # array 1 4|0 w 1 0 18446744073709551616| # 1 # script 2 Number|
run # array 1 4|0; r 1 0| # 1 # script 2 Number|
run # 0 r 1 0| # 1 # script 1 Declared|
run # array 1 4|array 1 4| # 1 # script 2 Declared|
run # array 1 4|join|array 2 4| # 1 # script 3 Declared|
run # array 1 4|0 r 256 0| # 1 # script 2 Declared|
run # array 1 131073| # 1 # script 1 Range|
run # array 256 4| # 1 # script 1 Range|
run # array 1 4|8 r 1 0| # 1 # script 2 Range|
run # array 1 4|0 r 1 4| # 1 # script 2 Range|
run # tree 2 4| # 1 # script 1 Word|
run # tree 2|0 d 2 0 1| # 1 # script 2 Word|
run # array 1 4|k glean # 0 # k.0 none|durable 1|
run # array 1 4|0 w 1 0 1|join|k glean|k glean # 0 # 0.0 ok 1:1|durable 1|k.0 snap 1 new 2|k.1 none|durable 2|
run --brief # array 1 4|0 w 1 0 1|join|k glean # 0 # commits 1|total 1|durable 2|
run # k drop| # 0 # k.0 drop 0 kept 0|durable 1|
run # array 1 4|k drop|k drop # 0 # k.0 drop 0 kept 0|k.1 drop 0 kept 0|durable 1|
run --brief # array 1 4|0 w 1 0 1|join|k glean|k drop # 0 # commits 1|total 1|durable 2|
run # k gleans| # 1 # script 1 Word|
run # k drops| # 1 # script 1 Word|
run # k drop 1| # 1 # script 1 Word|
run # k epoch | # 1 # script 1 Word|
run # k save 1| # 1 # script 1 Word|
run # k| # 1 # script 1 Word|
run # k epoch|array 1 4| # 1 # script 2 Declared|
run # tree 02| # 1 # script 1 Number|
run # tree 2|0 s 2 0 18446744073709551616| # 1 # script 2 Number|
run # tree 2|tree 2| # 1 # script 2 Declared|
run # tree 2|0 d 2 0; d 3 0| # 1 # script 2 Declared|
run # array 1 4|0 d 1 0| # 1 # script 2 Kind|
run # array 1 4|tree 2|0 s 2 0 9; s 1 0 9; r 1 4| # 1 # script 3 Kind|
run # tree 256| # 1 # script 1 Range|
";

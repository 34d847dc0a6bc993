// The scripts of the folder examples, one line after another, each with the text beside it and what the database keeps
// then: those of `NAME.txt`, `NAME.out` and `NAME.kept`.
use super::*;

const LEDGER: (&str, &str, &str) = (
    "\
array 1 4
0 w 1 0 100; w 1 1 50; w 1 2 25; w 1 3 0
0 r 1 0; r 1 1; r 1 2; r 1 3
1 r 1 0; r 1 3; w 1 0 70; w 1 3 30
1 r 1 1; r 1 2; w 1 1 40; w 1 2 35
2 r 1 0; r 1 1; r 1 2; r 1 3
join
0 a 1 0 10; t 1 1 15; r 1 0; r 1 1
0 t 1 2 1000; a 1 3 1000
1 r 1 2; r 1 3
",
    "\
0.0 ok 1:1
0.1 ok 1:2 100 50 25 0
1.0 ok 1:3 100 0
1.1 ok 1:4 50 25
2.0 ok 1:5 70 40 35 30
durable 1
0.0 ok 2:6 80 25
0.1 short 2:7
1.0 ok 2:8 35 30
durable 2
",
    "\
epoch 2
1 0 80
1 1 25
1 2 35
1 3 30
",
);

const TRANSFERS: (&str, &str, &str) = (
    "\
array 1 8
tree 2
0 w 1 0 1000; w 1 1 250; w 1 2 40
join
0 t 1 0 300; a 1 1 300; w 2 1001 300
0 t 1 2 75; a 1 0 75; w 2 1002 75
0 t 1 1 100; a 1 2 100; w 2 1003 100
0 t 1 7 1; a 1 0 1; w 2 1004 1
join
1 r 1 0; r 1 1; r 1 2
1 s 2 1000 1999
1 t 2 1003 100; d 2 1003; t 1 2 100; a 1 1 100
join
2 r 1 0; r 1 1; r 1 2; s 2 1000 1999
",
    "\
0.0 ok 1:1
durable 1
0.0 ok 2:2
0.1 short 2:3
0.2 ok 2:4
0.3 short 2:5
durable 2
1.0 ok 3:6 700 450 140
1.1 ok 3:7 1001=300,1003=100
1.2 ok 3:8
durable 3
2.0 ok 4:9 700 550 40 1001=300
durable 4
",
    "\
epoch 4
1 0 700
1 1 550
1 2 40
2 1001 300
",
);

const INVENTORY: (&str, &str, &str) = (
    "\
array 1 16
array 2 1
tree 3
0 a 1 3 20; a 1 5 2
join
1 t 1 3 4; w 3 501 4; a 2 0 36
1 t 1 5 3; w 3 502 3; a 2 0 60
1 t 1 5 1; w 3 503 1; a 2 0 20
1 r 1 5; s 3 500 599
join
0 d 3 501
0 a 1 5 1; t 2 0 20; d 3 503
join
2 s 3 500 599; r 1 3; r 1 5; r 2 0
",
    "\
0.0 ok 1:1
durable 1
1.0 ok 2:2
1.1 short 2:3
1.2 ok 2:4
1.3 ok 2:5 1 501=4,503=1
durable 2
0.0 ok 3:6
0.1 ok 3:7
durable 3
2.0 ok 4:8 . 16 2 36
durable 4
",
    "\
epoch 4
1 3 16
1 5 2
2 0 36
",
);

const QUEUE: (&str, &str, &str) = (
    "\
tree 1
array 2 2
0 w 1 10 700; a 2 0 1
0 w 1 11 701; a 2 0 1
0 w 1 12 702; a 2 0 1
join
1 s 1 0 99
1 r 1 10; d 1 10; a 2 1 1
join
0 w 1 13 703; a 2 0 1
join
1 r 1 11; d 1 11; a 2 1 1
1 r 1 12; d 1 12; a 2 1 1
1 r 1 13; d 1 13; a 2 1 1
1 s 1 0 99; r 2 0; r 2 1
1 r 1 14
",
    "\
0.0 ok 1:1
0.1 ok 1:2
0.2 ok 1:3
durable 1
1.0 ok 2:4 10=700,11=701,12=702
1.1 ok 2:5 700
durable 2
0.0 ok 3:6
durable 3
1.0 ok 4:7 701
1.1 ok 4:8 702
1.2 ok 4:9 703
1.3 ok 4:10 . 4 4
1.4 ok 4:11 -
durable 4
",
    "\
epoch 4
2 0 4
2 1 4
",
);

const PRICES: (&str, &str, &str) = (
    "\
tree 2
array 1 2
0 w 2 1700 42; w 2 900 40; w 2 1200 45; a 1 0 3
join
1 s 2 0 1199; r 2 900; r 2 1000
1 r 2 1200; d 2 900; s 2 0 18446744073709551615
join
0 w 2 900 41; a 2 1200 1; a 1 0 1; r 1 0
join
2 s 2 1000 1500; s 2 1800 2000; s 2 5 4
2 t 2 900 50; d 2 1700
2 s 2 900 1700
",
    "\
0.0 ok 1:1
durable 1
1.0 ok 2:2 900=40 40 -
1.1 ok 2:3 45 1200=45,1700=42
durable 2
0.0 ok 3:4 4
durable 3
2.0 ok 4:5 1200=46 . .
2.1 short 4:6
2.2 ok 4:7 900=41,1200=46,1700=42
durable 4
",
    "\
epoch 4
1 0 4
2 900 41
2 1200 46
2 1700 42
",
);

// The script, what is told, and what a dump tells then.
const EXAMPLES: [(&str, &str, &str); 5] = [LEDGER, TRANSFERS, INVENTORY, QUEUE, PRICES];

fn check_example<R: Threads + Wait + Sync + AllocGlobal>(
    rt: &R,
    script: &str,
    text: &str,
    kept: &str,
) -> Result<(), Fail> {
    let mut vault = fresh_vault(rt.alloc())?;
    check_over(rt, &mut vault, script, (text, kept))
}

// The same over a fresh database that is lent: what is owned at a `?` costs a proof.
fn check_over<R: Threads + Wait + Sync + AllocGlobal>(
    rt: &R,
    vault: &mut Vault<MemDisk>,
    script: &str,
    (text, kept): (&str, &str),
) -> Result<(), Fail> {
    check_answer(rt, vault, "run", script.as_bytes(), (0, text.as_bytes()))?;
    check_answer(rt, vault, "dump", b"", (0, kept.as_bytes()))
}

#[test]
fn each_example_comes_to_its_text(rt: HostRuntime) -> Result<(), Fail> {
    for (script, text, kept) in &EXAMPLES {
        check_example(&rt, script, text, kept)?;
    }
    Ok(())
}

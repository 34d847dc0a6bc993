// What a person is told on standard error of a call that did not do all: what its last line means, what the database
// keeps, and what to do.
ghost use Rattle.std.specs.Prelude.{◌≡◌};

/// The explanation of a status other than 0.
pub fn explanation(status: u8) -> &'static str
    ensures { status ≡ 2 → result.now ≡ USAGE.now }
{
    match status {
        1 => SCRIPT,
        2 => USAGE,
        3 => READ,
        4 => WRITE,
        5 => DEVICE,
        6 => DAMAGED,
        7 => LIMIT,
        9 => SNAPSHOT,
        _ => MEMORY,
    }
}

/// What the program does, for a person whose words were refused.
pub const USAGE: &str = "\
foedus runs the transactions of a script on a database and prints a line for each, or tells what the database keeps.

  foedus run [--tries N] [--slots N] [--snap N] [--brief] < SCRIPT
  foedus dump
  foedus snaps
  foedus snap EPOCH
  foedus make SEED WORKERS LINES

  run         reads the script from standard input and runs it on what the folder vault keeps
  --tries N   how often a transaction is tried that is in conflict: 1 to 1000000, 1000 if left out
  --slots N   pages in memory that can change: 4 to 4096, 256 if left out; a transaction that finds none free is full
  --snap N    snapshot pages in memory: 1 to 65536, 4096 if left out
  --brief     prints how many transactions committed, the sum of all values that the database keeps then, and
              the last durable epoch, in place of the lines
  dump        prints the saved epoch, and a line for each key: its storage, the key and its value;
              keys of arrays only where the value isn't 0
  snaps       prints a line for each snapshot: its epoch and its page
  snap EPOCH  prints the same as dump of the snapshot of that epoch: 0 to 1048575
  make        prints a script of so many LINES (1 to 65536) for so many WORKERS (1 to 8), the same for the same
              SEED (0 to 2147483647); it reads nothing and keeps nothing

Options come in any order, each at most once.

A script declares arrays (array ID SIZE) and trees (tree ID), and then has a line for each transaction: the worker
(0 to 7), and its operations, at most 16, as in 0 w 1 2 7; r 1 2. They are, on storage S:

  r S K       reads key K               a S K V   adds V; a sum above 2^64 - 1 ends the transaction as over
  w S K V     writes the value V        t S K V   takes V away; where there is less, it ends as short
  d S K       removes key K of a tree   s S A B   reads the first 16 keys of a tree from A to B

A line join ends a round, which is durable then; so does the end of the script. In a round k epoch ends the epoch,
k save makes durable what has ended, k glean makes a snapshot of what was durable as the log files last changed sides,
and k drop takes out of memory the pages that the newest snapshot has.

The last line of what is printed, and the status:

  0                     all was done
  1  script LINE KIND   the script has a faulty line;  shape ..  the database has other storages: nothing was run
  2  usage              the words ask for nothing that the program does, or for this text
  3  read               standard input failed: nothing was run
  4                     standard output failed
  5  device NAME        a file of the database can't be had, or failed
  6  damaged NAME AT    a file of the database isn't as this program writes it, from byte AT on
  7  limit NAME         a limit was reached
  8  memory             there wasn't enough memory
  9  no snapshot EPOCH  the database has no snapshot of that epoch
";

const SCRIPT: &str = "\
Nothing was run, and the database is as it was. Mend the script, or call in another folder.
";

const READ: &str = "\
Standard input failed before its end. Nothing was run, and the database is as it was. Call again with the whole script.
";

const WRITE: &str = "\
Standard output failed, so the end of the text is missing; rounds may have been run whose lines are. `foedus dump`
prints what the database keeps.
";

const DEVICE: &str = "\
The file of that name in the folder vault can't be had, or reading, writing or syncing it failed. What a `durable` line
told is kept. Once the file can be had again, `foedus dump` prints what the database keeps; then call for the rest. But
where a sync failed, look at the disk before: the system may show what never reached it. Copy the folder to another disk
and go on there, or start the machine again, which forgets what is only shown.
";

const DAMAGED: &str = "\
From that byte on the file of that name in the folder vault doesn't hold what this program writes. Put back a copy of
the folder whose files are all of one moment, or call in another folder.
";

const LIMIT: &str = "\
A limit was reached. Rounds before it are kept, as far as a `durable` line told; `foedus dump` prints what is, and
tools/load.py makes of that a script for a new database.
  epoch     the last epoch, 1048574, was used: go on in a new database
  draw      the run used up its 2^40 - 64 numbers: call again for the rest, with a smaller --tries
  bank      the log file of a worker is full: end the run earlier, since the next one begins with an empty one
  snap      the snapshots have more pages than --snap lets in: call again with a greater number
  height    a page of the next snapshot would stand below 32 others: go on in a new database
  sequence  the last savepoint was stored: go on in a new database
";

const MEMORY: &str = "\
There wasn't enough memory. What a `durable` line told is kept; `foedus dump` prints what is. Call again with shorter
rounds, or a smaller --snap.
";

const SNAPSHOT: &str = "\
The database has no snapshot of that epoch, and nothing was changed. `foedus snaps` prints those that it has.
";

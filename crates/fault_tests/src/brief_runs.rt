// Runs that are told in brief, of which a device fails.
ghost use Rattle.outside.specs.Disk.{IfTold, Only};

use super::*;

// One line, on an array and on a tree.
pub(super) const ON_AN_ARRAY: &[u8] = b"array 1 4\n0 w 1 2 7\n";

pub(super) const ON_A_TREE: &[u8] = b"array 1 4\ntree 2\n0 w 2 9 7\n";

// The device, and the first and the last of its calls at whose failure the run ends so: its status and its text. The run
// makes 15 calls of the save, three of the snapshots' file and three of bank 0; behind it what is kept is read by three
// calls of the save and two of each of the others. Where it finished, and that is refused, it ends so.
pub(super) const FAILING: &str = "\
save # 0 # 0 # 5 # device save|
save # 9 # 9 # 5 # commits 1|total 0|device save|
save # 15 # 17 # 5 # commits 1|durable 1|device save|
save # 18 # 18 # 0 # commits 1|total 7|durable 1|
snaps # 3 # 4 # 5 # commits 1|durable 1|device snaps|
snaps # 5 # 5 # 0 # commits 1|total 7|durable 1|
bank0 # 1 # 1 # 5 # commits 1|total 0|device bank0|
bank0 # 3 # 4 # 5 # commits 1|durable 1|device bank0|
bank0 # 5 # 5 # 0 # commits 1|total 7|durable 1|
";

// The same of a device of which each later call fails too: what is kept can't be read behind a run that it ended, and
// isn't told.
const BROKEN: &str = "\
save # 9 # 5 # commits 1|device save|
save # 15 # 5 # commits 1|durable 1|device save|
bank0 # 1 # 5 # commits 1|device bank0|
bank0 # 3 # 5 # commits 1|durable 1|device bank0|
";

fn check_broken<R: Threads + Wait + Sync + AllocGlobal>(
    rt: &R,
    fresh: &[Vec<u8>],
    script: &[u8],
    row: &str,
) -> Result<(), Fail> {
    let trouble = stops_behind(device_of(part(row, 0)), part(row, 1).parse::<u64>()?);
    let mut vault = troubled_vault(rt.alloc(), fresh, trouble)?;
    check_brief(rt, &mut vault, script, row)
}

// Makes the run of a row over a vault, which is lent: what is owned at a `?` costs a proof.
fn check_brief<R: Threads + Wait + Sync + AllocGlobal>(
    rt: &R,
    vault: &mut Vault<FuseDisk<MemDisk>>,
    script: &[u8],
    row: &str,
) -> Result<(), Fail>
    requires { IfTold (⟦<FuseDisk<MemDisk> as Disk>⟧.tells vault.old.save)
        (Only ⟦<FuseDisk<MemDisk> as Disk>⟧.clock ⟦<FuseDisk<MemDisk> as Disk>⟧.image_at vault.old.save) }
{
    let (got, told) = answer(rt, vault, "run --brief", script)?;
    check_told(rt, row, (got, &told), (part(row, 2), part(row, 3)))
}

#[test]
fn a_device_stays_broken_in_brief(rt: HostRuntime) -> Result<(), Fail> {
    let fresh = fresh_files(rt.alloc())?;
    for row in BROKEN.lines() {
        check_broken(&rt, &fresh, ON_AN_ARRAY, row)?;
        check_broken(&rt, &fresh, ON_A_TREE, row)?;
    }
    Ok(())
}

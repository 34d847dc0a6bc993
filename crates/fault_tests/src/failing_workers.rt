// A log file that fails ends its own worker's lines, and no other's.
ghost use Rattle.outside.specs.Disk.{IfTold, Only};

use super::*;

// Two workers with a hundred lines each, in turn.
fn two_workers(alloc: Global) -> Result<Vec<u8>, AllocError> {
    let mut script = Vec::new(alloc);
    script.extend_from_slice(b"array 1 3\n")?;
    for _ in 0..100 {
        script.extend_from_slice(b"0 w 1 0 1\n1 w 1 1 1\n")?;
    }
    Ok(script)
}

// The words of each line of a text but for its number.
fn without_numbers(alloc: Global, text: &str) -> Result<Vec<u8>, AllocError> {
    let mut bytes = Vec::new(alloc);
    for line in text.lines() {
        for word in line.split_whitespace() {
            if !word.contains(':') {
                bytes.extend_from_slice(word.as_bytes())?;
                bytes.push(b' ')?;
            }
        }
        bytes.push(b'\n')?;
    }
    Ok(bytes)
}

// What is told of two workers with a hundred lines each, where the log file of one of them fails at its second call: 93
// lines lie in the buffer before the first write.
fn half_run(alloc: Global, failing: u8) -> Result<Vec<u8>, AllocError> {
    let mut text = Vec::new(alloc);
    for worker in 0..2u8 {
        for index in 0..100u32 {
            let word = if worker == failing && index >= 93 {
                "unrun"
            } else {
                "ok"
            };
            let line = format!(in alloc; "{worker}.{index} {word} \n")?;
            text.extend_from_slice(line.as_bytes())?;
        }
    }
    Ok(text)
}

// Compares what is told of such a run with that. Answers what the devices hold then.
fn check_half_told<R: Threads + Wait + Sync + AllocGlobal>(
    rt: &R,
    vault: &mut Vault<FuseDisk<MemDisk>>,
    script: &[u8],
    device: &str,
    want: &[u8],
) -> Result<Files, Fail>
    requires { IfTold (⟦<FuseDisk<MemDisk> as Disk>⟧.tells vault.old.save)
        (Only ⟦<FuseDisk<MemDisk> as Disk>⟧.clock ⟦<FuseDisk<MemDisk> as Disk>⟧.image_at vault.old.save) }
{
    let (status, told) = answer_by(rt, vault, "run", script, &OpenGate)?;
    let text = without_numbers(rt.alloc(), str::from_utf8(&told)?)?;
    is_answer(device, (status, &text), (5, want))?;
    Ok(files_of(rt.alloc(), vault)?)
}

// The run in which this device fails, over a new database, and what the devices hold then.
fn left_half<R: Threads + Wait + Sync + AllocGlobal>(
    rt: &R,
    script: &[u8],
    device: &str,
    want: &[u8],
) -> Result<Files, Fail> {
    let fresh = fresh_files(rt.alloc())?;
    let mut vault = troubled_vault(rt.alloc(), &fresh, fails_at(device_of(device), 1))?;
    check_half_told(rt, &mut vault, script, device, want)
}

// The run in which this worker's log file fails, and its last line.
fn check_half<R: Threads + Wait + Sync + AllocGlobal>(
    rt: &R,
    script: &[u8],
    failing: u8,
    device: &str,
    last: &str,
) -> Result<(), Fail> {
    let mut want = half_run(rt.alloc(), failing)?;
    want.extend_from_slice(last.as_bytes())?;
    let left = left_half(rt, script, device, &want)?;
    check_over(rt, &left, ("dump", ""), (0, "epoch 0|"))
}

#[test]
fn others_go_on(rt: HostRuntime) -> Result<(), Fail> {
    let script = two_workers(rt.alloc())?;
    check_half(&rt, &script, 0, "bank0", "device bank0 \n")?;
    check_half(&rt, &script, 1, "bank2", "device bank2 \n")
}

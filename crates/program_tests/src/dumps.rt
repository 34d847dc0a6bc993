// What a vault keeps, told as text, and damage in it.
use super::*;
use serial_model::{Decl, Key, State};
use tx_script::write_state;

const DUMP: [&str; 2] = ["foedus", "dump"];

// The status and the text of a dump of what a vault holds, whose sink fails at this call. The vault's calls fail as it
// says.
fn dump<R: Threads + Wait + Sync + AllocGlobal>(
    rt: &R,
    vault: &Vault<MemDisk>,
    failing_write: u64,
) -> Result<(u8, Vec<u8>), Fail> {
    let mut source = source_of(rt.alloc(), b"", 0)?;
    let mut vault = anew(rt.alloc(), vault, vault.save.fails())?;
    let fails = [failing_write];
    told(rt, &DUMP, &mut source, &fails, &mut vault, &OpenGate)
}

// What a vault keeps: nothing; of a run that was saved so many counted bytes and a value, where the first call of the
// save may fail; a save of another length.
#[derive(Clone, Copy)]
enum Kept {
    Nothing,
    Saved(u64, u64),
    Failing,
    Short,
}

fn vault_with(alloc: Global, kept: Kept) -> Result<Vault<MemDisk>, AllocError> {
    match kept {
        Kept::Nothing => fresh_vault(alloc),
        Kept::Saved(counted, value) => saved_vault(alloc, counted, value, &[]),
        Kept::Failing => saved_vault(alloc, 40, 7, &[0]),
        Kept::Short => vault_of(alloc, &[0; 3], &[], &[], &[]),
    }
}

// What a vault keeps, the number of the failing write, the status and the text.
const DUMPS: [(Kept, u64, u8, &str); 8] = [
    (Kept::Nothing, 9, 0, "epoch 0\n"),
    (Kept::Saved(40, 7), 9, 0, "epoch 1\n1 2 7\n"),
    (Kept::Saved(0, 7), 9, 0, "epoch 1\n"),
    (Kept::Saved(40, 0), 9, 0, "epoch 1\n"),
    (Kept::Saved(40, 7), 0, 4, "epoch 1"),
    (Kept::Short, 9, 6, "damaged save 0\n"),
    (Kept::Saved(41, 7), 9, 6, "damaged bank0 40\n"),
    (Kept::Failing, 9, 5, "device save\n"),
];

fn check_dump<R: Threads + Wait + Sync + AllocGlobal>(
    rt: &R,
    kept: Kept,
    failing_write: u64,
    status: u8,
    text: &str,
) -> Result<(), Fail> {
    let vault = vault_with(rt.alloc(), kept)?;
    let (got, told) = dump(rt, &vault, failing_write)?;
    is_answer(text, (got, &told), (status, text.as_bytes()))
}

// What is kept of vaults, and damage at its byte.
#[test]
fn a_dump_tells_what_is_kept(rt: HostRuntime) -> Result<(), Fail> {
    for (kept, failing_write, status, text) in &DUMPS {
        check_dump(&rt, *kept, *failing_write, *status, text)?;
    }
    Ok(())
}

// Storages, keys and values.
const VALUES: [(u8, u64, u64); 4] = [(2, 5, 50), (2, 0, 0), (1, 0, 0), (1, 2, 7)];

fn insert_values(state: &mut State) -> Result<(), Fail> {
    for (storage, key, value) in &VALUES {
        let (storage, key) = (*storage, *key);
        let _before = state.insert(Key { storage, key }, *value)?;
    }
    Ok(())
}

fn is_written(sink: &mut MemSink, state: &State) -> bool {
    let decls = [Decl::Array { id: 1, size: 4 }, Decl::Tree { id: 2 }];
    write_state(sink, 3, state, &decls).is_ok()
}

// Of an array the keys whose value isn't 0, and of a tree those that are present.
#[test]
fn a_state_as_text(rt: HostRuntime) -> Result<(), Fail> {
    let mut state = State::new(rt.alloc());
    insert_values(&mut state)?;
    let mut sink = MemSink::new(rt.alloc(), Vec::new(rt.alloc()));
    is_so("a state that is written", is_written(&mut sink, &state))?;
    is_same("a state", sink.bytes(), b"epoch 3\n1 2 7\n2 0 0\n2 5 50\n")
}

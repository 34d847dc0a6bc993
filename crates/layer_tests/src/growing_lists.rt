// Lists that grow, and the refusals of memory that `?` turns into one error.
use super::checks::is_so;
use lists::{Memory, OrMemory, Sequence};
use std::alloc::{AllocError, Global};
use std::collections::{BTreeMap, BTreeSet};
use std::test::Fail;

fn grown(alloc: Global) -> Result<Sequence<u64>, Memory> {
    let mut list = Sequence::from_slice(alloc, &[1, 2, 3])?;
    list.push(4)?;
    list.append(&[5, 6])?;
    list.set(0, 7);
    list.truncate(5);
    Ok(list)
}

/// One entry in a map, one in a set, and a copy of a list.
fn stored(alloc: Global) -> Result<usize, OrMemory<u8>> {
    let mut map = BTreeMap::new(alloc);
    map.insert(1u8, 2u8)?;
    let mut set = BTreeSet::new(alloc);
    set.insert(3u8)?;
    let copy = grown(alloc)?;
    let list = Sequence::from_vec(copy.as_slice().to_vec(alloc)?);
    Ok(map.len() + set.len() + list.len())
}

#[test]
fn a_list_grows(rt: HostRuntime) -> Result<(), Fail> {
    let mut list = grown(rt.alloc())?;
    is_so("five items", list.as_slice() == [7, 2, 3, 4, 5].as_slice())?;
    is_so("what is stored", stored(rt.alloc()) == Ok(7))?;
    list.clear();
    is_so(
        "none",
        list.is_empty() & (Memory::from(AllocError) == Memory),
    )
}

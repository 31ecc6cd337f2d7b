use mp_logic::{Assignment, Copied, ListOf, NoMemory};
use std::alloc::Global;

/// Whether bytes that are put at the end in turn stand in that order.
fn joins_bytes(alloc: Global) -> Result<bool, NoMemory> {
    let mut bytes: ListOf<u8> = ListOf::new(alloc);
    bytes.extend(b"ab")?;
    bytes.extend(b"")?;
    bytes.extend(b"c")?;
    Ok(bytes.items() == b"abc".as_slice())
}

/// Whether a list of three values is set, copied and cut, and made of the copy's vector again.
fn changes_lists(alloc: Global) -> Result<bool, NoMemory> {
    let mut list = Assignment::new(alloc);
    for value in [true, false, true] {
        list.push(value)?;
    }
    if list.len() != 3 {
        return Ok(false);
    }
    list.set(1, true);
    let copied = list.copy(alloc)?;
    list.cut(1);
    let again: Assignment = ListOf::from_vec(copied.into_vec());
    Ok(list.items() == [true].as_slice() && are_three(&again))
}

fn are_three(list: &Assignment) -> bool {
    list.len() == 3 && list.items() == [true, true, true].as_slice()
}

#[test]
fn lists(rt: HostRuntime) {
    assert!(rt; matches!(joins_bytes(rt.alloc()), Ok(true)));
    assert!(rt; matches!(changes_lists(rt.alloc()), Ok(true)));
}

//! Lists with the newest item first.

use fw_list::{Memory, Newest};

/// The newest of two items.
fn newest(rt: &HostRuntime) -> Result<Option<u32>, Memory> {
    let mut list = Newest::new(rt.alloc());
    list.push(1)?;
    list.push(2)?;
    Ok(list.at(0).copied())
}

#[test]
fn the_newest_stands_first(rt: HostRuntime) {
    assert_eq!(rt; newest(&rt), Ok(Some(2)));
}

use lists::{List, OutOfMemory, Text};

#[test]
fn a_list_is_filled_changed_and_emptied(rt: HostRuntime) -> Result<(), OutOfMemory> {
    let mut list: List<u32> = List::new(rt.alloc());
    list.push(5)?;
    list.push(7)?;
    list.set(0, 6);
    assert_eq!(rt; list.as_slice(), [6, 7].as_slice());
    assert_eq!(rt; list.len(), 2);
    assert_eq!(rt; *list.get(1), 7);
    assert_eq!(rt; list.pop(), Some(7));
    assert_eq!(rt; list.pop(), Some(6));
    assert_eq!(rt; list.pop(), None);
    Ok(())
}

#[test]
fn octets_and_texts_come_back(rt: HostRuntime) -> Result<(), OutOfMemory> {
    let mut octets: List<u8> = List::new(rt.alloc());
    octets.extend(b"net")?;
    octets.extend(b"sim")?;
    assert_eq!(rt; octets.as_slice(), b"netsim".as_slice());
    assert_eq!(rt; Text::new(rt.alloc(), "x-1_b")?.as_str(), "x-1_b");
    Ok(())
}

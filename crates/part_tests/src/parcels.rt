use lists::OutOfMemory;
use manchester_line::Sym;
use net_parts::{Parcel, ParcelList, Symbols};

/// Symbols are set, put over others and cut, and never get more.
#[test]
fn symbols_are_filled_and_cut(rt: HostRuntime) -> Result<(), OutOfMemory> {
    assert_eq!(rt; Symbols::none(rt.alloc()).len(), 0);
    let mut symbols = Symbols::idle(rt.alloc(), 5)?;
    symbols.set(0, Sym::Clash);
    symbols.put(2, &[Sym::Hi, Sym::Lo]);
    let want = [Sym::Clash, Sym::Idle, Sym::Hi, Sym::Lo, Sym::Idle];
    assert_eq!(rt; symbols.as_slice(), want.as_slice());
    symbols.cut(9);
    assert_eq!(rt; symbols.len(), 5);
    symbols.cut(3);
    assert_eq!(rt; symbols.as_slice(), &want[..3]);
    Ok(())
}

/// A parcel is kept in a list and comes out as it was.
#[test]
fn parcels_are_kept(rt: HostRuntime) -> Result<(), OutOfMemory> {
    let mut parcels = ParcelList::new(rt.alloc());
    let symbols = Symbols::idle(rt.alloc(), 2)?;
    parcels.push(Parcel {
        edge: 3,
        window: 1,
        to_repeater: true,
        symbols,
        spoiled: false,
    })?;
    if let Some(parcel) = parcels.pop() {
        assert_eq!(rt;
            (
                parcel.edge,
                parcel.window,
                parcel.to_repeater,
                parcel.spoiled
            ),
            (3, 1, true, false)
        );
        assert_eq!(rt;
            parcel.symbols.as_slice(),
            [Sym::Idle, Sym::Idle].as_slice()
        );
    }
    assert_eq!(rt; parcels.len(), 0);
    Ok(())
}

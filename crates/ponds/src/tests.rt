use crate::Pond;
use flood::{Entry, Heap, flood};
use marks::{Class, Height, Mark, Order, Refusal};
use std::test::Fail;

// A height, or a test that fails. No crate can use another's helpers of tests.
fn height(dm: i16) -> Result<Height, Fail> {
    Ok(Height::new(dm).ok_or("void")?)
}

// A node that is its own origin.
fn waits<M: Mark>(level: M, node: usize) -> Entry<M> {
    Entry {
        level,
        node,
        origin: node,
    }
}

// A pond of classes.
fn wet_pond() -> Pond<Class> {
    Pond {
        low: Class::Open,
        mid: Class::Wet,
        high: Class::Kept,
    }
}

// Node 1 drains at the middle level over node 2, not at the high one; what stands behind the nodes stays.
#[test]
fn heights(rt: HostRuntime) -> Result<(), Fail> {
    let low = height(-3)?;
    let mid = height(4)?;
    let high = height(9)?;
    let mut levels = [Some(high); 6];
    let mut origins = [Some(77); 6];
    let mut slots = [waits(Height::void(), 0); 5];
    flood(
        &Pond { low, mid, high },
        &mut levels,
        &mut origins,
        &mut slots,
    )?;
    assert_eq!(rt; levels[0], Some(low));
    assert_eq!(rt; levels[1], Some(mid));
    assert_eq!(rt; levels[2], Some(low));
    assert_eq!(rt; levels[3], Some(mid));
    assert_eq!(rt; levels[4], None);
    assert_eq!(rt; levels[5], Some(high));
    assert_eq!(rt; origins[2], Some(0));
    assert_eq!(rt; origins[3], Some(3));
    assert_eq!(rt; origins[4], None);
    assert_eq!(rt; origins[5], Some(77));
    Ok(())
}

// One slot too few is refused, and nothing is written.
#[test]
fn classes(rt: HostRuntime) -> Result<(), Fail> {
    let pond = wet_pond();
    let mut levels = [Some(Class::Void); 5];
    let mut origins = [Some(77); 5];
    let mut slots = [waits(Class::Void, 0); 5];
    assert_eq!(rt;
        flood(&pond, &mut levels, &mut origins, &mut slots[..4]),
        Err(Refusal::ScratchShort)
    );
    assert_eq!(rt; levels[1], Some(Class::Void));
    flood(&pond, &mut levels, &mut origins, &mut slots)?;
    assert_eq!(rt; levels[1], Some(Class::Wet));
    assert_eq!(rt; levels[4], None);
    Ok(())
}

// Entries come out by level; a third is refused, and so is raising one.
#[test]
fn heap(rt: HostRuntime) -> Result<(), Fail> {
    let mut slots = [waits(Class::Void, 0); 2];
    let wet = waits(Class::Wet, 1);
    let peat = waits(Class::Peat, 2);
    let mut heap = Heap::new(&mut slots);
    assert!(rt; heap.take().is_none());
    heap.put(peat)?;
    heap.put(wet)?;
    assert_eq!(rt; heap.put(wet), Err(Refusal::HeapFull));
    assert!(rt; heap.look(2).is_none());
    assert_eq!(rt; heap.lower(0, peat), Err(Refusal::NoLowering));
    assert_eq!(rt; heap.lower(2, wet), Err(Refusal::NoLowering));
    assert_eq!(rt; heap.take().ok_or("empty")?.node, 1);
    Ok(())
}

// One level or origin too few is refused.
#[test]
fn too_few(rt: HostRuntime) {
    let pond = wet_pond();
    let mut levels = [Some(Class::Void); 5];
    let mut origins = [Some(77); 5];
    let mut slots = [waits(Class::Void, 0); 5];
    assert_eq!(rt;
        flood(&pond, &mut levels[..4], &mut origins, &mut slots),
        Err(Refusal::ScratchShort)
    );
    assert_eq!(rt;
        flood(&pond, &mut levels, &mut origins[..4], &mut slots),
        Err(Refusal::ScratchShort)
    );
}

// The higher of two entries of heights is lowered below the other, and comes out first.
#[test]
fn lowering(rt: HostRuntime) -> Result<(), Fail> {
    let mut slots = [waits(Height::void(), 0); 2];
    let mut heap = Heap::new(&mut slots);
    let five = waits(height(5)?, 1);
    let seven = waits(height(7)?, 2);
    let below = waits(height(-2)?, 2);
    heap.put(five)?;
    heap.put(seven)?;
    heap.lower(1, below)?;
    assert_eq!(rt; heap.take().ok_or("empty")?.node, 2);
    Ok(())
}

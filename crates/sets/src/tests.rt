// A set at the ends of its range, and in its order.
use crate::index_set::IndexSet;

#[test]
fn members(rt: HostRuntime) {
    let set = IndexSet::from([63u8, 0, 9, 64, 255, 9].as_slice());
    let mut members = set.iter();
    assert_eq!(rt; members.next(), Some(0));
    assert_eq!(rt; members.next(), Some(9));
    assert_eq!(rt; members.next(), Some(63));
    assert_eq!(rt; members.next(), None);
    assert!(rt; set.contains(63));
    assert!(rt; !set.contains(64));
    assert!(rt; set.is_below(64));
    assert!(rt; !set.is_below(63));
    assert!(rt; IndexSet::from([64u8].as_slice()).is_empty());
}

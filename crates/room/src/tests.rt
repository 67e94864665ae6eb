// Rooms of both makes.
use crate::room::Room;
use joints::house::HouseJoint;
use joints::soft::SoftJoint;
use solids::catalogue::CatalogueSolid;
use solids::probed::Probed;

#[test]
fn catalogue(rt: HostRuntime) {
    let mut room = Room::<CatalogueSolid, HouseJoint>::of_defaults(rt.alloc()).expect(
        &rt, "memory",
    );
    let tables = room.tables();
    assert!(rt; tables.solids.len() == 512);
    assert!(rt; tables.joints.len() == 511);
}

#[test]
fn probed(rt: HostRuntime) {
    let mut room = Room::<Probed, SoftJoint>::of_defaults(rt.alloc()).expect(&rt, "memory");
    let tables = room.tables();
    assert!(rt; tables.nodes.len() == 1023);
    assert!(rt; tables.list.len() == 1023);
}

// Lines, and the answers of the block that the ball cuts.
use crate::answer::{Answer, Fault};
use crate::call::Call;
use crate::reading::read_call;
use crate::script::answer;
use joints::house::HouseJoint;
use scene::scene::Scene;
use solids::catalogue::{Ball, Block, CatalogueSolid};
use space::point::Point;
use space::refusal::Refusal;
use std::test::Fail;
use tree::node::{Blend, Entry, EntryKind, Node, NodeKind};

#[test]
fn calls(rt: HostRuntime) {
    assert!(rt; read_call("s 1 2 3") == Some(Call::Distance(1, 2, 3)));
    assert!(rt; read_call("s -0 -00002 99999") == Some(Call::Distance(0, -2, 99999)));
}

#[test]
fn bad_lines(rt: HostRuntime) {
    assert!(rt; read_call("").is_none());
    assert!(rt; read_call("s").is_none());
    assert!(rt; read_call("t 1 2 3").is_none());
    assert!(rt; read_call("ss 1 2 3").is_none());
    assert!(rt; read_call("s 1 2").is_none());
    assert!(rt; read_call("s 1 2 3 4").is_none());
    assert!(rt; read_call("s 1  2 3").is_none());
    assert!(rt; read_call("s 1 2 3 ").is_none());
    assert!(rt; read_call("s +1 2 3").is_none());
    assert!(rt; read_call("s - 2 3").is_none());
    assert!(rt; read_call("s --1 2 3").is_none());
    assert!(rt; read_call("s 123456 2 3").is_none());
    assert!(rt; read_call("s 1a 2 3").is_none());
    assert!(rt; read_call(" s 1 2 3").is_none());
}

#[test]
fn printed(rt: HostRuntime) -> Result<(), Fail> {
    let heap = rt.alloc();
    assert!(rt; Answer::At(-40).to_string(heap)?.as_str() == "at -40");
    assert!(rt; Fault::No(Refusal::Outside(2)).to_string(heap)?.as_str() == "no 12 2");
    assert!(rt; Fault::Bad.to_string(heap)?.as_str() == "bad");
    Ok(())
}

#[test]
fn answers(rt: HostRuntime) -> Result<(), Fail> {
    let solids = [
        CatalogueSolid::Block(Block {
            centre: Point { x: 0, y: 0, z: 0 },
            half_x: 100,
            half_y: 100,
            half_z: 100,
            radius: 0,
        }),
        CatalogueSolid::Ball(Ball {
            centre: Point { x: 100, y: 0, z: 0 },
            radius: 60,
        }),
    ];
    let joints = [HouseJoint::Sharp];
    let nodes = [
        Node {
            kind: NodeKind::Solid,
            turned: false,
            number: 0,
        },
        Node {
            kind: NodeKind::Solid,
            turned: false,
            number: 1,
        },
        Node {
            kind: NodeKind::Cut,
            turned: false,
            number: 0,
        },
    ];
    let list = [
        Entry {
            kind: EntryKind::Solid,
            turned: false,
            number: 0,
        },
        Entry {
            kind: EntryKind::Solid,
            turned: true,
            number: 1,
        },
        Entry {
            kind: EntryKind::Operator(Blend::Common),
            turned: false,
            number: 0,
        },
    ];
    let scene = Scene {
        solids: &solids,
        joints: &joints,
        nodes: &nodes,
        list: &list,
    };
    assert!(rt; answer(&scene, "s 0 0 0") == Ok(Answer::At(-40)));
    assert!(rt; answer(&scene, "s 100 0 0") == Ok(Answer::At(60)));
    assert!(rt; answer(&scene, "s 0 8192 0") == Err(Fault::No(Refusal::Outside(2))));
    assert!(rt; answer(&scene, "s 0 0") == Err(Fault::Bad));
    Ok(())
}

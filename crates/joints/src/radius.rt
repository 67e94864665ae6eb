// The radius of a joint that has one. This file holds the type alone, so that the specs can name it.
ghost use Rattle.std.specs.Prelude.{◌≤◌};

// 1 to 2,048. The ghost fields are owed wherever a `Radius` is made or changed.
#[derive(Clone, Copy)]
pub struct Radius {
    pub k: u16,
    ghost positive: { 1 ≤ k },
    ghost limited: { k ≤ 2048 },
}

// What a refusal tells: its number, its layer and its place. They are methods, and no From: there are three of them.
ghost use Rattle.std.specs.Prelude.{◌≡◌};
ghost use Rattle.space.specs.Refusals.{number, layer, place, table_place};

use crate::refusal::{Layer, Refusal, Table};

impl Refusal {
    pub fn number(self) -> u16
        ensures { result ≡ number self }
    {
        match self {
            Refusal::Short => 1,
            Refusal::Make => 2,
            Refusal::Count(_) => 3,
            Refusal::Offset(_) => 4,
            Refusal::Length => 5,
            Refusal::Room(_) => 6,
            Refusal::Solid(_) => 7,
            Refusal::Joint(_) => 8,
            Refusal::Node(_) => 9,
            Refusal::Order(_) => 10,
            Refusal::Unused(_) => 11,
            Refusal::Outside(_) => 12,
            Refusal::Full => 18,
            Refusal::Output => 19,
        }
    }

    pub fn layer(self) -> Layer
        ensures { result ≡ layer self }
    {
        match self {
            Refusal::Short
            | Refusal::Make
            | Refusal::Count(_)
            | Refusal::Offset(_)
            | Refusal::Length
            | Refusal::Room(_)
            | Refusal::Output => Layer::File,
            Refusal::Solid(_) | Refusal::Joint(_) | Refusal::Node(_) => Layer::Record,
            Refusal::Order(_) | Refusal::Unused(_) => Layer::Tree,
            Refusal::Outside(_) => Layer::Point,
            Refusal::Full => Layer::Walk,
        }
    }

    pub fn place(self) -> u16
        ensures { result ≡ place self }
    {
        match self {
            Refusal::Short | Refusal::Make | Refusal::Length | Refusal::Full | Refusal::Output => 0,
            Refusal::Count(t) | Refusal::Offset(t) | Refusal::Room(t) => t.place(),
            Refusal::Solid(n)
            | Refusal::Joint(n)
            | Refusal::Node(n)
            | Refusal::Order(n)
            | Refusal::Unused(n)
            | Refusal::Outside(n) => n,
        }
    }
}

impl Table {
    // its place in a refusal; a method, and no From: a table has no number elsewhere
    pub fn place(self) -> u16
        ensures { result ≡ table_place self }
    {
        match self {
            Table::Solids => 1,
            Table::Joints => 2,
            Table::Nodes => 3,
            Table::List => 4,
        }
    }
}

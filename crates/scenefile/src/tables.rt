// The tables that a caller lends to hold a scene. This file holds the types alone, so that the specs can
// name them.
use space::refusal::Refusal;
use tree::node::{Entry, Node};

#[derive(Drop)]
pub struct Tables<'a, S, J> {
    pub solids: &'a mut [S],
    pub joints: &'a mut [J],
    pub nodes: &'a mut [Node],
    pub list: &'a mut [Entry],
}

// A refused file: why, and the tables handed back.
#[derive(Drop)]
pub struct Unread<'a, S, J> {
    pub refusal: Refusal,
    pub tables: Tables<'a, S, J>,
}

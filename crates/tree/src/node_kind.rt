// The number that stands for a kind of node in a record.
ghost use Rattle.std.specs.Prelude.{◌≡◌};
ghost use Rattle.space.specs.Numbered.{KindOf};
ghost use Rattle.tree.specs.KindNumber.{kind_number};

use crate::node::NodeKind;
use space::unknown::Unknown;

impl TryFrom<u8> for NodeKind {
    type Error = Unknown<u8>;

    ghost try_from_gives = { KindOf kind_number };

    fn try_from(number: u8) -> Result<Self, Unknown<u8>> {
        match number {
            1 => Ok(NodeKind::Solid),
            2 => Ok(NodeKind::Union),
            3 => Ok(NodeKind::Common),
            4 => Ok(NodeKind::Cut),
            _ => Err(Unknown(number)),
        }
    }
}

impl From<NodeKind> for u8 {
    ghost from_gives = { λ kind number. number ≡ kind_number kind };

    fn from(kind: NodeKind) -> Self {
        match kind {
            NodeKind::Solid => 1,
            NodeKind::Union => 2,
            NodeKind::Common => 3,
            NodeKind::Cut => 4,
        }
    }
}

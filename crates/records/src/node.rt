// Records of nodes.
ghost use Rattle.std.specs.Prelude.{◌≡◌, refl};
ghost use Rattle.std.proofs.Math.Dec.{lit≤};
ghost use Rattle.records.specs.Apart.{node_apart};
ghost use Rattle.records.specs.Node.{node_record};

use crate::bytes::put_bytes;
use crate::record::Record;
use tree::node::{Node, NodeKind};

impl Record for Node {
    const LENGTH: usize = 4;

    ghost LENGTH = { 4 };

    ghost written = { node_record };

    ghost sized = { λ x. refl };

    ghost apart = { node_apart };

    ghost short = { lit≤ tt };

    fn read(bytes: &[u8]) -> Option<Node> {
        let [kind, turned, low, high, rest @ ..] = bytes else {
            return None;
        };
        if !rest.is_empty() {
            return None;
        }
        let kind = NodeKind::try_from(*kind).ok()?;
        let turned = match *turned {
            0 => false,
            1 => true,
            _ => return None,
        };
        let number = u16::from_le_bytes([*low, *high]);
        Some(Node {
            kind,
            turned,
            number,
        })
    }

    fn write(&self, out: &mut [u8]) {
        put_bytes(&node_bytes(*self), out);
    }
}

fn node_bytes(n: Node) -> [u8; 4]
    ensures { result ≡ node_record n }
{
    let [low, high] = n.number.to_le_bytes();
    [u8::from(n.kind), u8::from(n.turned), low, high]
}

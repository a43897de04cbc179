// The directions that are cut.
ghost use Rattle.std.specs.Prelude.{◌≡◌, ◌++◌, ◌∷◌, [], not, filter, OnOk};
ghost use Rattle.std.specs.List.{list_any};
ghost use Rattle.st_rules.specs.Admissible.{is_link};
ghost use Rattle.st_rules.specs.World.{same_node};

use st_base::NodeId;
use st_rules::CutLink;
use std::alloc::AllocError;

fn same_node(a: NodeId, b: NodeId) -> bool
    ensures { result ≡ same_node a b }
{
    match a {
        NodeId::Client(c) => match b {
            NodeId::Client(d) => c.0 == d.0,
            NodeId::Server(_) => false,
        },
        NodeId::Server(s) => match b {
            NodeId::Client(_) => false,
            NodeId::Server(t) => s.0 == t.0,
        },
    }
}

fn is_link(cut: CutLink, from: NodeId, to: NodeId) -> bool
    ensures { result ≡ is_link from to cut }
{
    same_node(cut.from, from) && same_node(cut.to, to)
}

/// Whether this direction is cut.
pub fn is_cut(cuts: &[CutLink], from: NodeId, to: NodeId) -> bool
    ensures { result ≡ list_any (is_link from to) cuts.now }
{
    for cut in cuts {
        if is_link(*cut, from, to) {
            return true;
        }
    }
    false
}

/// Takes this direction out of those that are cut.
pub fn heal(cuts: &mut Vec<CutLink>, from: NodeId, to: NodeId)
    ensures { cuts.new.items ≡ filter (λ x. not (is_link from to x)) cuts.old.items }
{
    cuts.retain(|cut| !is_link(*cut, from, to));
}

/// Adds this direction to those that are cut, once.
pub fn cut(cuts: &mut Vec<CutLink>, from: NodeId, to: NodeId) -> Result<(), AllocError>
    ensures { OnOk result (cuts.new.items ≡ filter (λ x. not (is_link from to x)) cuts.old.items ++ record { from = from; to = to } ∷ []) }
{
    heal(cuts, from, to);
    cuts.push(CutLink { from, to })?;
    Ok(())
}

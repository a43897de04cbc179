ghost use Rattle.std.specs.Prelude.{◌≡◌, ◌≤◌, ◌+◌, ◌<◌, ◌++◌, IfOk, OnOk, length, map, vec_len};
ghost use Rattle.st_rules.specs.Extents as extents;
ghost use Rattle.st_extents.specs.Layout.{IsWithinLimits};

use st_base::{BlockAt, DiskId, ServerId};
use std::alloc::{AllocError, Global};

/// Adds the blocks of the disk at this place, counted from 0.
fn push_disk(own: &mut Vec<BlockAt>, place: u16, blocks: u32) -> Result<(), AllocError>
    requires few { blocks ≤ 4096 }
    requires small { place < 8 }
    ensures added { OnOk result (own.new.items ≡ own.old.items ++ map (extents.block_at place) (extents.numbers 0 blocks)) }
    ensures bounded { OnOk result (vec_len own.new ≡ vec_len own.old + blocks) }
{
    for block in 0..blocks {
        own.push(BlockAt {
            disk: DiskId(place + 1),
            block,
        })?;
    }
    Ok(())
}

/// The blocks of one server's disks, in order.
pub fn own_blocks(
    alloc: Global,
    server: ServerId,
    servers: u16,
    disks: u16,
    blocks: u32,
) -> Result<Vec<BlockAt>, AllocError>
    requires { IsWithinLimits server.0 servers disks blocks }
    ensures blocks { IfOk result (λ own. own.items ≡ extents.own_blocks (extents.no_extents server servers disks blocks)) }
    ensures few { IfOk result (λ own. length own.items ≤ 32768) }
{
    let mut own = Vec::new(alloc);
    for place in 0..disks {
        if place % servers + 1 != server.0 {
            continue;
        }
        push_disk(&mut own, place, blocks)?;
    }
    Ok(own)
}

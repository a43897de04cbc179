// The lives of a client at its servers.
ghost use Rattle.std.specs.Prelude.{◌≡◌, map, IfOk};
ghost use Rattle.std.specs.List.{list_all};
ghost use Rattle.st_embed.specs.Clients.{is_kept, is_none, life};
ghost use Rattle.st_embed.specs.Lives.{four_lives, same_lives};

use st_base::{Life, ServerId};
use st_client::ClientNode;
use std::alloc::{AllocError, Global};

/// The lives at servers 1 to 4; 0 if there is no such server.
#[derive(Clone, Copy)]
pub struct FourLives {
    pub(crate) first: Life,
    pub(crate) second: Life,
    pub(crate) third: Life,
    pub(crate) fourth: Life,
}

/// The lives of a client.
pub(crate) fn lives_now(node: &ClientNode) -> FourLives
    ensures { result ≡ four_lives node.now.state }
{
    FourLives {
        first: node.life(ServerId(1)),
        second: node.life(ServerId(2)),
        third: node.life(ServerId(3)),
        fourth: node.life(ServerId(4)),
    }
}

/// Whether these are the same lives.
pub(crate) fn are_same(a: FourLives, b: FourLives) -> bool
    ensures { result ≡ same_lives a b }
{
    a.first.0 == b.first.0
        && (a.second.0 == b.second.0 && (a.third.0 == b.third.0 && a.fourth.0 == b.fourth.0))
}

/// Whether each life is 0.
pub(crate) fn are_none(lives: &[u64]) -> bool
    ensures { result ≡ list_all is_none lives.now }
{
    lives.iter().all(|life| *life == 0)
}

/// Whether each is a life that began, after which another may begin in which steps are taken.
pub(crate) fn are_kept(lives: &[u64]) -> bool
    ensures { result ≡ list_all is_kept lives.now }
{
    lives
        .iter()
        .all(|life| 1 <= *life && *life < 4_611_686_018_427_387_903)
}

/// The lives of these numbers.
pub(crate) fn lives_of(alloc: Global, numbers: &[u64]) -> Result<Vec<Life>, AllocError>
    ensures { IfOk result (λ v. v.items ≡ map life numbers.now) }
{
    let mut lives = Vec::new(alloc);
    for i in 0..numbers.len() {
        lives.push(Life(numbers[i]))?;
    }
    Ok(lives)
}
